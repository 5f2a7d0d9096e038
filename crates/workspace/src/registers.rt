// The registers, in which an evaluation hands on what it came to: words of 8 bytes, and two places for a value.
ghost use Rattle.std.specs.Prelude.{◌≡◌, ◌<◌, ◌≤◌, length};
ghost use Rattle.workspace.specs.Parts.{workspace_size, registers_part};
ghost use Rattle.workspace.specs.Registers.{word_count, word_at, value_at};
ghost use Rattle.workspace.specs.Post.{SetsWord, SetsValue};

use super::REGISTERS;
use value::Val;
use value::encoding::{get_val, put_val};

// The words, and the bytes of one.
const WORDS: usize = 14;

const WORD: usize = 8;

// The bytes of the place of a value.
const VALUE: usize = 16;

// The bytes of the registers: the words and two places.
pub(crate) const BYTES: usize = WORDS * WORD + 2 * VALUE;

// Where the values stand, behind the words.
const VALUES: usize = REGISTERS + WORDS * WORD;

#[tactic(auto, using(crate::proofs::RegisterLaws::word_read))]
pub fn word(ws: &[u8], k: usize) -> u64
    requires { (workspace_size ≤ length ws.now) × (k < word_count) }
    ensures { result ≡ word_at (registers_part ws.now) k }
{
    layout::get::<8>(ws, REGISTERS + k * WORD)
}

#[tactic(auto, using(crate::proofs::RegisterLaws::word_set))]
pub fn set_word(ws: &mut [u8], k: usize, x: u64)
    requires { (workspace_size ≤ length ws.old) × (k < word_count) }
    ensures { SetsWord ws.old k x ws.new }
{
    layout::put::<8>(ws, REGISTERS + k * WORD, x);
}

#[tactic(auto, using(crate::proofs::RegisterLaws::value_read))]
pub fn value(ws: &[u8], k: usize) -> Val
    requires { (workspace_size ≤ length ws.now) × (k < 2) }
    ensures { result ≡ value_at (registers_part ws.now) k }
{
    get_val(ws, VALUES + k * VALUE)
}

#[tactic(auto, using(crate::proofs::RegisterLaws::value_set))]
pub fn set_value(ws: &mut [u8], k: usize, v: Val)
    requires { (workspace_size ≤ length ws.old) × (k < 2) }
    ensures { SetsValue ws.old k v ws.new }
{
    put_val(ws, VALUES + k * VALUE, v);
}
