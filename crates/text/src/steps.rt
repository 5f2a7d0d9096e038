// The parts of a step's line.
ghost use Rattle.std.specs.Prelude.{◌≤◌, []};
ghost use Rattle.layout.specs.Text.{text};
ghost use Rattle.layout.specs.Number.{number_at};
ghost use Rattle.files.specs.Program.{texts_in};
ghost use Rattle.definition.specs.Act.{not_followed};
ghost use Rattle.definition.specs.Listing.{address_text, note_text, step_text};
ghost use Rattle.text.specs.Read.{names_in, step_in};
ghost use Rattle.text.specs.Told.{note_told, wrote_said};
ghost use Rattle.text.specs.Lines.{commaed};
ghost use Rattle.text.specs.Pushed.{Room, Pushed};

use crate::bodies::{Name, StepBytes};
use crate::line::Line;
use stream::NotePiece;
use value::Val;

impl<'a> Line<'a> {
    // The address, or as much space as it takes.
    pub fn address(&mut self, address: Option<u64>)
        requires { Room self.old (address_text [] address) }
        ensures { Pushed self.old self.new (address_text [] address) }
    {
        match address {
            None => self.text(b"        "),
            Some(a) => self.padded(a),
        }
    }

    // What it wrote.
    pub fn wrote(&mut self, wrote: Option<(Name, Val)>)
        requires { Room self.old (wrote_said wrote) }
        ensures { Pushed self.old self.new (wrote_said wrote.entry) }
    {
        let Some((name, v)) = wrote else {
            return;
        };
        self.text(b"  ; ");
        self.name(name);
        self.text(b" = ");
        self.value(v);
    }

    // The names that a call that is not followed took, at least one.
    fn taken(&mut self, step: StepBytes)
        requires some { 1 ≤ number_at step.bytes.now 61 2 }
        requires room { Room self.old (commaed (texts_in step.names.body.now) (names_in step.bytes.now 63 (number_at step.bytes.now 61 2))) }
        ensures { Pushed self.old self.new (commaed (texts_in step.entry.names.body.now) (names_in step.entry.bytes.now 63 (number_at step.entry.bytes.now 61 2))) }
    {
        self.name(step.taken(0));
        for k in 1..step.taken_count() {
            self.text(b", ");
            self.name(step.taken(k));
        }
    }

    // That a call is not followed, with the names that it took.
    fn not_followed(&mut self, step: StepBytes)
        requires { Room self.old (note_text (texts_in step.names.body.now) (not_followed (names_in step.bytes.now 63 (number_at step.bytes.now 61 2)))) }
        ensures { Pushed self.old self.new (note_text (texts_in step.entry.names.body.now) (not_followed (names_in step.entry.bytes.now 63 (number_at step.entry.bytes.now 61 2)))) }
    {
        if step.taken_count() == 0 {
            return self.text(
                b"  ; not followed; its result is unknown, and what it wrote to memory is not known",
            );
        }
        self.text(b"  ; not followed; its result is unknown, as are ");
        self.taken(step);
        self.text(b" after it");
    }

    // The note of a step: of a call that is not followed the step's bytes tell the names that it took.
    pub fn note(&mut self, step: StepBytes, note: NotePiece)
        requires { Room self.old (note_text (texts_in step.names.body.now) (note_told step.bytes.now note)) }
        ensures { Pushed self.old self.new (note_text (texts_in step.entry.names.body.now) (note_told step.entry.bytes.now note)) }
    {
        match note {
            NotePiece::Nothing => (),
            NotePiece::Fields(address, count) => {
                self.text(b"  ; wrote ");
                self.decimal(count);
                self.text(b" fields at ");
                self.hexadecimal(address);
            }
            NotePiece::Written(address, v) => {
                self.text(b"  ; wrote ");
                self.value(v);
                self.text(b" at ");
                self.hexadecimal(address);
            }
            NotePiece::Unknown => self.text(b"  ; its result is unknown"),
            NotePiece::NotFollowed => self.not_followed(step),
        }
    }

    #[tactic(auto, unfolding(crate::specs::Read::step_in))]
    pub fn step(&mut self, step: StepBytes)
        requires { Room self.old (step_text (texts_in step.names.body.now) (step_in step.bytes.now)) }
        ensures { Pushed self.old self.new (step_text (texts_in step.entry.names.body.now) (step_in step.entry.bytes.now)) }
    {
        self.text(b"  ");
        self.address(step.address());
        self.text(b"  ");
        self.decimal(step.statement());
        self.wrote(step.wrote());
        self.note(step, step.note());
        self.text(b"\n");
    }
}
