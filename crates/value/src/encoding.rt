// A value in the 14 bytes that a record has of it.
ghost use Rattle.std.specs.Prelude.{◌≡◌, ◌+◌, ◌≤◌, length};
ghost use Rattle.std.proofs.lemmas.List.Edits.{sets};
ghost use Rattle.value.specs.Encoding.{value_size, val_bytes, val_at};

use super::Val;

// The bytes of a value.
pub const SIZE: usize = 14;

// The value whose bytes start at an index.
#[tactic(auto, using(crate::proofs::EncodingLaws::val_read))]
pub fn get_val(s: &[u8], at: usize) -> Val
    requires { at + value_size ≤ length s.now }
    ensures { result ≡ val_at s.now at }
{
    let known = layout::get::<1>(s, at);
    let signed = layout::get::<1>(s, at + 1);
    let bits = layout::get::<4>(s, at + 2);
    let number = layout::get::<8>(s, at + 6);
    Val {
        known: known != 0,
        signed: signed != 0,
        bits: bits as u32,
        number,
    }
}

// A value's bytes from an index on.
#[tactic(auto, using(crate::proofs::EncodingLaws::val_written))]
pub fn put_val(s: &mut [u8], at: usize, v: Val)
    requires { at + value_size ≤ length s.old }
    ensures { s.new ≡ sets s.old at (val_bytes v) }
{
    layout::put::<1>(s, at, v.known as u64);
    layout::put::<1>(s, at + 1, v.signed as u64);
    layout::put::<4>(s, at + 2, v.bits as u64);
    layout::put::<8>(s, at + 6, v.number);
}
