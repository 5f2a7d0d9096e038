// The listing of a run, line by line, each made in one buffer and written out.
ghost use Rattle.std.specs.Prelude.{◌≡◌, ◌≤◌, length};
ghost use Rattle.index.specs.Texts.{text_count};
ghost use Rattle.definition.specs.Record.{body_at};
ghost use Rattle.text.specs.Left.{StepsLeft, VariablesLeft};
ghost use Rattle.listing.specs.Accepted.{Located, Listable, RunOf};

use files::checked::Routine;
use std::io;
use text::bodies::{HeadBytes, Names, StopBytes, VariableBytes};

// The numbers of the bodies of a record that lines are made of.
const STOP: usize = 0;

const STEPS: usize = 2;

const VARIABLES: usize = 3;

// Where lines are printed, and the buffer that each is made in.
#[derive(Drop)]
struct Printer<'a, P: Print> {
    rt: &'a P,
    out: [u8; text::LINE],
}

impl<'a, P: Print> Printer<'a, P> {
    fn new(rt: &'a P) -> Self {
        Printer {
            rt,
            out: [0; text::LINE],
        }
    }

    // A line of something, made at the front of the buffer and printed.
    fn line<T, M: FnOnce(T, &mut [u8]) -> usize>(&mut self, make: M, of: T) -> io::Result<()>
        requires callable { (out : _) → length out.now ≡ 8192 → M.pre make of out }
        requires short { (out size left : _) → M.post make of out size left → size ≤ 8192 }
    {
        let size = make(of, &mut self.out);
        self.rt.write_all(&self.out[..size])
    }

    fn steps(&mut self, names: Names, steps: &[u8]) -> io::Result<()>
        requires { StepsLeft (text_count names.body.now) steps.now }
    {
        for step in names.steps(steps) {
            self.line(text::step_line, step)?;
        }
        Ok(())
    }

    fn variables(&mut self, names: Names, variables: &[u8]) -> io::Result<()>
        requires { VariablesLeft (text_count names.body.now) variables.now }
    {
        for bytes in variables.chunks_exact(VariableBytes::SIZE) {
            let variable = VariableBytes { names, bytes };
            self.line(text::variable_line, variable)?;
        }
        Ok(())
    }

    // The lines of an accepted run, from its record.
    fn lines(&mut self, head: HeadBytes, record: &[u8]) -> io::Result<()>
        requires { Listable (text_count head.names.body.now) «record».now }
    {
        let names = head.names;
        let stop = StopBytes {
            names,
            bytes: body(record, STOP),
        };
        self.line(text::header, head)?;
        self.steps(names, body(record, STEPS))?;
        self.line(text::stop_line, stop)?;
        self.variables(names, body(record, VARIABLES))
    }

    // The listing of an accepted run, from its routine and its record.
    fn listing(&mut self, routine: &[u8], record: &[u8]) -> io::Result<()>
        requires { RunOf routine.now «record».now }
    {
        let routine = Routine { bytes: routine };
        let mut part = [0u8; index::texts::TEXTS];
        let body = routine.names();
        index::texts::fill_texts(body, &mut part);
        let names = Names { body, part: &part };
        let head = HeadBytes {
            names,
            bytes: routine.head(),
        };
        self.lines(head, record)
    }
}

// What pair i of a record locates.
#[tactic(auto, unfolding(definition::specs::Record::body_at, layout::specs::Number::located))]
fn body(record: &[u8], i: usize) -> &[u8]
    requires { Located «record».now i }
    ensures { result.now ≡ body_at «record».now i }
{
    layout::located::<4>(record, 8 * i)
}

// A run with the buffers that the listing lends, and its listing.
#[tactic(auto, using(crate::proofs::Ready::run_of))]
pub fn print_listing<P: Print + Drop>(
    rt: &P,
    routine: &[u8],
    world: &[u8],
    call: &[u8],
    record: &mut [u8],
    workspace: &mut [u8],
) -> io::Result<()>
    requires { (length «record».old ≡ 65536) × (length workspace.old ≡ 65536) }
{
    let mut printer = Printer::new(rt);
    let answer = emulate::run(routine, world, call, record, workspace);
    if answer.number != 0 {
        return printer.line(text::refusal_line, answer.number as u64);
    }
    let size = answer.length as usize;
    printer.listing(routine, &record[..size])
}
