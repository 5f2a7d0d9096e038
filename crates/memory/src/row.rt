// A row: entries one after the other from the front of a slice, ascending by address. What the addresses from one on have in it: one search, then a step for
// each. (A place in a row and a rank are of one search, whose clauses name them: no value outlives it. So are a span and its run.)
ghost use Rattle.std.specs.Prelude.{◌≡◌, suc, ◌+◌, ◌*◌, ◌%◌, ◌^◌, ◌<◌, ◌≤◌, true, [], length};
ghost use Rattle.layout.specs.Number.{le, num};
ghost use Rattle.memory.specs.Overlay.{to_byte, find as find_in, rank, load as load_in};
ghost use Rattle.memory.specs.Entries.{Sorted, entries};
ghost use Rattle.memory.specs.Post.{IsOverlay, Parts, byte_in, Untouched, Spans};

use super::{ENTRY, Image, first_of};
use std::marker::Model;

// Which entries have the addresses of a store: from one up to another.
#[derive(Clone, Copy)]
pub struct Span {
    pub at: usize,
    pub end: usize,
}

// A clause sees the overlay that the entries are.
#[derive(Drop)]
pub struct Row<'a> {
    bytes: &'a [u8],
    count: usize,
}

impl<'a> Model for Row<'a> {
    ghost use Rattle.memory.specs.Overlay.{Overlay, Cell};
    ghost use Rattle.memory.specs.Entries.{IsRow, row_of};

    ghost Value = { Overlay Cell };

    ghost view = { λ r. row_of r.bytes.now r.count };

    ghost invariant = { λ r. IsRow r.bytes.now r.count };
}

impl<'a> Row<'a> {
    // The entries of a part.
    #[tactic(auto, using(crate::proofs::PartLaws::lent, crate::proofs::PartLaws::lent_row))]
    pub fn new(part: &'a [u8], count: usize) -> Row<'a>
        requires { Sorted part.now count }
        ensures { result ≡ entries part.now count }
    {
        Row {
            bytes: &part[first_of(part, count) * ENTRY..],
            count,
        }
    }

    #[tactic(auto, using(crate::proofs::RowLaws::length_row))]
    pub fn len(&self) -> usize
        ensures len { result ≡ length self.now }
        ensures row { IsOverlay self.now }
    {
        self.count
    }

    // The address of entry i.
    #[tactic(auto, using(crate::proofs::RowLaws::row_room))]
    pub fn address(&self, i: usize) -> u64
        requires { i < length self.now }
        ensures { Parts self.now i result }
    {
        layout::get::<8>(self.bytes, i * ENTRY)
    }

    // The byte of entry i.
    #[tactic(auto, using(crate::proofs::RowLaws::row_room, crate::proofs::RowLaws::row_byte_in))]
    fn byte(&self, i: usize) -> u8
        requires { i < length self.now }
        ensures { result ≡ byte_in self.now i }
    {
        let bytes = self.bytes;
        bytes[i * ENTRY + 8]
    }

    // The entries of so many bytes from an address on.
    #[tactic(auto, using(crate::proofs::OverlayLaws::rank_mono, crate::proofs::OverlayLaws::rank_most))]
    pub fn span_of(&self, address: u64, bytes: usize) -> Span
        requires { (0 < bytes) × (address + bytes ≤ 2 ^ 64) }
        ensures { Spans self.now (length self.now) result address bytes }
    {
        let at = self.lower(address);
        let end = self.past(at, address + (bytes as u64 - 1));
        Span { at, end }
    }

    // The byte at an address whose rank is known.
    #[tactic(auto, using(crate::proofs::RowLaws::found_there, crate::proofs::RowLaws::found_none))]
    fn find_at(&self, address: u64, at: usize) -> Option<u8>
        requires { at ≡ rank address self.now }
        ensures byte { result ≡ to_byte (find_in address self.now) }
        ensures row { IsOverlay self.now }
    {
        if at < self.len() {
            if self.address(at) == address {
                return Some(self.byte(at));
            }
        }
        None
    }

    pub fn find(&self, address: u64) -> Option<u8>
        ensures { result ≡ to_byte (find_in address self.now) }
    {
        self.find_at(address, self.lower(address))
    }

    // Whether none of so many addresses from one on, whose rank is known, has an entry. Where they might wrap, they are left to the loop.
    fn untouched(&self, address: u64, at: usize, bytes: usize) -> bool
        requires { at ≡ rank address self.now }
        ensures { result ≡ true → Untouched self.now address bytes }
    {
        let Some(end) = address.checked_add(bytes as u64) else {
            return false;
        };
        self.len() <= at || end <= self.address(at)
    }

    // The number of the bytes from an address on, whose rank is known, one by one. (That they are at most eight is asked from the workspace's load down to here,
    // where they are joined: a type of such counts would be made in one place and taken apart in another, and its own clause say the same.)
    fn load_each(&self, image: Image, address: u64, at: usize, bytes: usize) -> Option<u64>
        requires bytes_bound { bytes ≤ 8 }
        requires at_rank { at ≡ rank address self.now }
        ensures { result ≡ load_in self.now (le image.count image.number) address bytes }
    {
        let mut place = at;
        let mut here = address;
        let mut left = image;
        let mut number = 0;
        for i in 0..bytes {
            let own = self.find_at(here, place);
            let byte = own.or(left.first())?;
            number = joined(number, i, byte);
            place = after(here, place + own.is_some() as usize);
            here = here.wrapping_add(1);
            left = left.rest();
        }
        Some(number)
    }

    // The number of the bytes from an address on. Most loads are of bytes that the run has not written.
    #[tactic(auto, using(crate::proofs::LoadLaws::load_untouched))]
    pub fn load(&self, image: Image, address: u64, bytes: usize) -> Option<u64>
        requires { bytes ≤ 8 }
        ensures { result ≡ load_in self.now (le image.count image.number) address bytes }
    {
        let at = self.lower(address);
        if self.untouched(address, at, bytes) {
            return of_image(image, bytes);
        }
        self.load_each(image, address, at, bytes)
    }
}

// The rank of the address after one, if the number past it has that rank: no entry comes before address 0. (`checked_add` would make a sum for nothing.)
fn after(address: u64, at: usize) -> usize
    ensures { (address + 1 ≡ 2 ^ 64 → result ≡ 0) × (address + 1 < 2 ^ 64 → result ≡ at) }
{
    if address == u64::MAX { 0 } else { at }
}

// A number of i bytes with one more byte above them.
fn joined(number: u64, i: usize, byte: u8) -> u64
    requires { (i < 8) × (number < 256 ^ i) }
    ensures { (result ≡ number + 256 ^ i * byte) × (result < 256 ^ suc i) }
{
    number + ((byte as u64) << (8 * i))
}

// The low bytes of a number, so many. (A shift by 64 bits is none, so that all bytes are a case of their own.)
#[tactic(auto, using(crate::proofs::LoadLaws::all_bytes))]
fn low_bytes(number: u64, bytes: usize) -> u64
    ensures { result ≡ num (le bytes number) }
{
    if bytes < 8 {
        number % (1u64 << (8 * bytes))
    } else {
        number
    }
}

// The image's own bytes: a load where the overlay has none.
#[tactic(auto, using(crate::proofs::LoadLaws::image_short, crate::proofs::LoadLaws::image_full))]
fn of_image(image: Image, bytes: usize) -> Option<u64>
    ensures { result ≡ load_in [] (le image.count image.number) 0 bytes }
{
    (bytes <= image.count).then_some(low_bytes(image.number, bytes))
}
