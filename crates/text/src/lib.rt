// The lines of a listing, each written into a lent buffer from the routine's names and the bodies of a record.
#![tactic(auto)]

ghost use Rattle.std.specs.Prelude.{◌++◌, ◌≤◌, ◌<◌, length};
ghost use Rattle.layout.specs.Text.{text};
ghost use Rattle.layout.specs.Number.{number_at};
ghost use Rattle.files.specs.Program.{texts_in};
ghost use Rattle.definition.specs.Numerals.{decimal};
ghost use Rattle.definition.specs.Listing.{step_text};
ghost use Rattle.value.specs.Encoding.{val_at};
ghost use Rattle.text.specs.Put.{Put};
ghost use Rattle.text.specs.Read.{step_in, stop_in};
ghost use Rattle.text.specs.Lines.{header_text, stop_line, variable_line};

pub mod bodies;
pub mod line;
mod numerals;
pub mod steps;
pub mod stops;

use bodies::{HeadBytes, Name, StepBytes, StopBytes, VariableBytes};
use line::Line;
use stops::Stop;
use value::Val;

// The bytes of a buffer in which every line fits. (That the lent one has so many is a clause of each line: a type with this fact would be made from the buffer
// for one line, by the same proof, and taken apart again for the next.)
pub const LINE: usize = 8192;

// Pieces in a row, other ones in each line: a function for two of them would take each piece as a parameter, and say no less.
impl<'a> Line<'a> {
    ghost use Rattle.text.specs.Told.{stop_said};
    ghost use Rattle.text.specs.Pushed.{Room, Pushed};

    fn refusal(&mut self, number: u64)
        requires { Room self.old (text "; refused " ++ (decimal number ++ text "\n")) }
        ensures { Pushed self.old self.new (text "; refused " ++ (decimal number ++ text "\n")) }
    {
        self.text(b"; refused ");
        self.decimal(number);
        self.text(b"\n");
    }

    #[tactic(auto, unfolding(crate::specs::Lines::header_text))]
    fn header(&mut self, name: Name, address: u64)
        requires { Room self.old (header_text (texts_in name.names.body.now) name.number address) }
        ensures { Pushed self.old self.new (header_text (texts_in name.entry.names.body.now) name.entry.number address) }
    {
        self.text(b"; ");
        self.name(name);
        self.text(b" at ");
        self.hexadecimal(address);
        self.text(b": emulated\n");
    }

    fn stop_line(&mut self, stop: Stop)
        requires { Room self.old (text "; " ++ (stop_said stop ++ text "\n")) }
        ensures { Pushed self.old self.new (text "; " ++ (stop_said stop.entry ++ text "\n")) }
    {
        self.text(b"; ");
        self.stop(stop);
        self.text(b"\n");
    }

    #[tactic(auto, unfolding(crate::specs::Lines::variable_line))]
    fn variable(&mut self, name: Name, v: Val)
        requires { Room self.old (variable_line (texts_in name.names.body.now) (name.number, v)) }
        ensures { Pushed self.old self.new (variable_line (texts_in name.entry.names.body.now) (name.entry.number, v)) }
    {
        self.text(b";   ");
        self.name(name);
        self.text(b" = ");
        self.value(v);
        self.text(b"\n");
    }
}

// The line of a refusal: how many bytes it has. This and the others below make a line, write it and say its length: a function that takes what to
// write as a closure would say in four clauses what these three lines do.
pub fn refusal_line(number: u64, out: &mut [u8]) -> usize
    requires { 8192 ≤ length out.old }
    ensures { (Put out.old 0 (text "; refused " ++ (decimal number ++ text "\n")) out.new result) × (result ≤ 8192) }
{
    let mut line = Line::new(out);
    line.refusal(number);
    line.len()
}

// The first line: the routine's name and address, which its head has.
pub fn header(head: HeadBytes, out: &mut [u8]) -> usize
    requires { 8192 ≤ length out.old }
    ensures { (Put out.old 0 (header_text (texts_in head.entry.names.body.now) (number_at head.entry.bytes.now 0 2) (number_at head.entry.bytes.now 2 8)) out.new result) × (result ≤ 8192) }
{
    let mut line = Line::new(out);
    line.header(head.name(), head.address());
    line.len()
}

// The line of a step.
pub fn step_line(step: StepBytes, out: &mut [u8]) -> usize
    requires { 8192 ≤ length out.old }
    ensures { (Put out.old 0 (step_text (texts_in step.entry.names.body.now) (step_in step.entry.bytes.now)) out.new result) × (result ≤ 8192) }
{
    let mut line = Line::new(out);
    line.step(step);
    line.len()
}

// The line of why the run stopped.
pub fn stop_line(stop: StopBytes, out: &mut [u8]) -> usize
    requires { 8192 ≤ length out.old }
    ensures { (Put out.old 0 (stop_line (texts_in stop.entry.names.body.now) (stop_in stop.entry.bytes.now)) out.new result) × (result ≤ 8192) }
{
    let mut line = Line::new(out);
    line.stop_line(stop.stop());
    line.len()
}

// The line of a variable.
pub fn variable_line(variable: VariableBytes, out: &mut [u8]) -> usize
    requires { 8192 ≤ length out.old }
    ensures { (Put out.old 0 (variable_line (texts_in variable.entry.names.body.now) (number_at variable.entry.bytes.now 0 2, val_at variable.entry.bytes.now 2)) out.new result) × (result ≤ 8192) }
{
    let mut line = Line::new(out);
    line.variable(variable.name(), variable.value());
    line.len()
}
