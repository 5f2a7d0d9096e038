// The record put together in its buffer: the bodies' lengths, and each body through its own part. (`stored` goes beside the workspace, which says why.)
// (`steps_place ≤ length buffer` stays a clause: a struct round the buffer would have to promise in each of the four functions that it lends the same
// bytes, which is longer than the clause.)
ghost use Rattle.std.specs.Prelude.{◌≡◌, ◌+◌, ◌*◌, ◌<◌, ◌≤◌, length};
ghost use Rattle.std.proofs.lemmas.List.Edits.{sets};
ghost use Rattle.memory.specs.Entries.{memory_body};
ghost use Rattle.definition.specs.Record.{counts_body, variables_body};
ghost use Rattle.workspace.specs.View.{view, Fit};
ghost use Rattle.stream.specs.Bodies.{stop_place, counts_place, steps_place, pairs_of, lengths_of, last_end};
ghost use Rattle.passes.specs.Writing.{Measured, fits_in, PutsStop, PutsFixed, Laid, PutsBodies};

use hosting::{Counts, Stop, Tally};
use memory::ENTRY;
use stream::{COUNTS_PLACE, Lengths, STEPS_PLACE, STOP_PLACE};
use workspace::variables::VARIABLE;

// The most bytes that a record has.
const LONGEST: u64 = 4294967295;

// The lengths of the bodies.
#[tactic(auto, using(crate::proofs::Measures::few_variables, crate::proofs::Measures::measured))]
pub fn measure(ws: &[u8], at: Counts) -> Lengths
    requires { Fit ws.now at.stored }
    ensures { Measured ws.now at result }
{
    let tally = at.tally;
    let n = workspace::variables::variable_count(ws);
    Lengths {
        steps: tally.recorded,
        variables: (n * VARIABLE) as u64,
        memory: (at.stored * ENTRY) as u64,
        questions: tally.asked,
    }
}

// Whether a record of these lengths has room in a buffer of n bytes.
#[tactic(auto, using(crate::proofs::Measures::steps_over, crate::proofs::Measures::questions_over, crate::proofs::Measures::fits_is))]
pub fn fits(l: Lengths, n: u64) -> bool
    requires { (l.variables ≤ 8192) × (l.memory ≤ 36864) }
    ensures { result ≡ fits_in l n }
{
    if LONGEST < l.steps {
        return false;
    }
    if LONGEST < l.questions {
        return false;
    }
    let end = l.end();
    (end <= LONGEST) & (end <= n)
}

#[tactic(auto, using(crate::proofs::Buffer::stop_put))]
pub fn put_stop(buffer: &mut [u8], stop: Stop, limit: u64)
    requires { steps_place ≤ length buffer.old }
    ensures { PutsStop limit stop buffer.old buffer.new }
{
    let piece = outcomes::stops::stop_piece(stop, limit);
    stream::stop(&mut buffer[STOP_PLACE..COUNTS_PLACE], piece);
}

#[tactic(auto, using(crate::proofs::Buffer::counts_put))]
pub fn put_counts(buffer: &mut [u8], entered: u64, recorded: u64)
    requires { (steps_place ≤ length buffer.old) × (entered + recorded < 4294967296) }
    ensures { buffer.new ≡ sets buffer.old counts_place (counts_body entered recorded) }
{
    stream::counts(&mut buffer[COUNTS_PLACE..STEPS_PLACE], entered, recorded);
}

#[tactic(auto, using(crate::proofs::Buffer::variables_room, crate::proofs::Buffer::variables_put))]
pub fn put_variables(buffer: &mut [u8], ws: &[u8], stored: usize, v: usize)
    requires fit { Fit ws.now stored }
    requires bodies_fit { v + length (view ws.now stored).variables * 16 ≤ length buffer.old }
    ensures { buffer.new ≡ sets buffer.old v (variables_body (view ws.now stored).variables) }
{
    workspace::variables::copy_variables(ws, &mut buffer[v..]);
}

#[tactic(auto, using(crate::proofs::Buffer::memory_put))]
pub fn put_memory(buffer: &mut [u8], ws: &[u8], stored: usize, m: usize)
    requires fit { Fit ws.now stored }
    requires bodies_fit { m + stored * 9 ≤ length buffer.old }
    ensures { buffer.new ≡ sets buffer.old m (memory_body (view ws.now stored).memory) }
{
    workspace::copy_memory(ws, stored, &mut buffer[m..]);
}

#[tactic(auto, using(crate::proofs::Buffer::pairs_put))]
pub fn put_pairs(buffer: &mut [u8], l: Lengths)
    requires { (steps_place ≤ length buffer.old) × (last_end l < 4294967296) }
    ensures { buffer.new ≡ sets buffer.old 0 (pairs_of stop_place (lengths_of l)) }
{
    stream::pairs(&mut buffer[0..STOP_PLACE], l);
}

// Stop and Counts.
#[tactic(auto, using(crate::proofs::Completing::fixed_put))]
pub fn put_fixed(buffer: &mut [u8], stop: Stop, limit: u64, tally: Tally)
    requires { (steps_place ≤ length buffer.old) × (tally.entered + tally.steps < 4294967296) }
    ensures { PutsFixed limit stop tally buffer.old buffer.new }
{
    put_stop(buffer, stop, limit);
    put_counts(buffer, tally.entered, tally.steps);
}

// Variables from place v on, then Memory from place m on.
#[tactic(auto, using(crate::proofs::Completing::state_put))]
pub fn put_state(buffer: &mut [u8], ws: &[u8], stored: usize, v: usize, m: usize)
    requires fit { Fit ws.now stored }
    requires bodies_fit { (v + length (view ws.now stored).variables * 16 ≤ length buffer.old) × (m + stored * 9 ≤ length buffer.old) }
    ensures { buffer.new ≡ sets (sets buffer.old v (variables_body (view ws.now stored).variables)) m (memory_body (view ws.now stored).memory) }
{
    put_variables(buffer, ws, stored, v);
    put_memory(buffer, ws, stored, m);
}

// All bodies but those of the streams, and the pairs.
#[tactic(auto, using(crate::proofs::Completing::bodies_put))]
pub fn put_bodies(buffer: &mut [u8], ws: &[u8], stop: Stop, limit: u64, at: Counts, l: Lengths)
    requires { Laid ws.now at l (length buffer.old) }
    ensures { PutsBodies limit stop ws.now at l buffer.old buffer.new }
{
    let v = STEPS_PLACE + l.steps as usize;
    let m = v + l.variables as usize;
    let tally = at.tally;
    put_fixed(buffer, stop, limit, tally);
    put_state(buffer, ws, at.stored, v, m);
    put_pairs(buffer, l);
}

// Where the last body ends, which is the record's length.
pub fn end_of(l: Lengths) -> u32
    requires { last_end l ≤ 4294967295 }
    ensures { result ≡ last_end l }
{
    l.end() as u32
}
