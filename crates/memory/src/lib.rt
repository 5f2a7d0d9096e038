// The bytes that a run has written: entries of an address and a byte, ascending by address, in a lent part of the workspace.
// A count of the entries stands beside the part: this is a fixed place with room for more of them on both sides, so that its length does not tell.
// Each function asks that they are sorted. A struct of both with that fact was tried. As a field, the fact has to hold at each write through the reference, and
// it does not while entries move; by value, no proof is made where one function hands the struct to another; as a model, callers learn nothing of their bytes
// at the end, and its clauses are a tenth longer. (`bytes` is how many of a number's are meant.)
#![tactic(auto)]

ghost use Rattle.std.specs.Prelude.{◌≡◌, ◌+◌, ◌-◌, ◌*◌, ◌^◌, ◌<◌, ◌≤◌, ◌++◌, length, take, drop};
ghost use Rattle.std.proofs.lemmas.List.Edits.{sets};
ghost use Rattle.layout.specs.Number.{le};
ghost use Rattle.layout.specs.Format.{writes};
ghost use Rattle.memory.specs.Overlay.{to_byte, byte_or, find as find_in, store as store_in, stores, run_of, load};
ghost use Rattle.memory.specs.Entries.{Sorted, entry, entries, entry_size, limit, first as first_in, piece, overwritten, memory_body};
ghost use Rattle.memory.specs.Post.{Holds, Stores, StoresAll, SlideBoth, Slid, Spans, Spliced, Unmoved};

mod row;
mod search;

use row::{Row, Span};

// The bytes of an entry: address u64, byte u8.
pub const ENTRY: usize = 9;

// The most entries.
pub const LIMIT: usize = 4096;

// Where a part says at which place its first entry is, u16: after the places of all.
const FIRST: usize = LIMIT * ENTRY;

// The bytes of a part.
pub const PART: usize = FIRST + 2;

// So many entries are moved sooner than a branch is taken that the machine guesses wrong.
const FEW: usize = 64;

// The overlay has no room for what is stored.
#[derive(Clone, Copy, PartialEq, Eq)]
pub struct Full;

// What the image answered to a `read`: how many bytes, and their little-endian number.
#[derive(Clone, Copy, Default)]
pub struct Image {
    pub count: usize,
    pub number: u64,
}

impl Image {
    // The first byte. (A `read` of none hides later bytes.)
    fn first(self) -> Option<u8>
        ensures { result ≡ byte_or None (le self.count self.number) }
    {
        (self.count != 0).then_some((self.number % 256) as u8)
    }

    // The answer without its first byte.
    #[tactic(auto, using(crate::proofs::LoadLaws::rest_is))]
    fn rest(self) -> Self
        ensures { le result.count result.number ≡ drop 1 (le self.count self.number) }
    {
        Self {
            count: self.count.saturating_sub(1),
            number: self.number / 256,
        }
    }
}

// So many entries go from one place to another.
#[derive(Clone, Copy)]
struct Move {
    from: usize,
    to: usize,
    count: usize,
}

// The low bytes of a number, the lowest first, at addresses from one on that do not wrap.
#[derive(Clone, Copy)]
struct Run {
    address: u64,
    number: u64,
    bytes: usize,
    ghost some: { 0 < bytes },
    ghost few: { bytes ≤ 8 },
    ghost no_wrap: { address + bytes ≤ 2 ^ 64 },
}

// The place of the first entry; where there is none, the front.
#[tactic(auto, using(crate::proofs::PartLaws::first_none, crate::proofs::PartLaws::first_some))]
fn first_of(part: &[u8], count: usize) -> usize
    requires { Sorted part.now count }
    ensures { result ≡ first_in part.now count }
{
    if count == 0 {
        return 0;
    }
    layout::get::<2>(part, FIRST) as usize
}

// The byte at an address.
pub fn find(part: &[u8], count: usize, address: u64) -> Option<u8>
    requires { Sorted part.now count }
    ensures { result ≡ to_byte (find_in address (entries part.now count)) }
{
    Row::new(part, count).find(address)
}

// The number of the bytes from an address on, the overlay's or else the image's, if each is there; addresses wrap.
pub fn load_number(
    part: &[u8],
    count: usize,
    image: Image,
    address: u64,
    bytes: usize,
) -> Option<u64>
    requires sorted { Sorted part.now count }
    requires bytes_bound { bytes ≤ 8 }
    ensures { result ≡ load (entries part.now count) (le image.count image.number) address bytes }
{
    Row::new(part, count).load(image, address, bytes)
}

// The first n bytes go up by so many entries: n is no length, since there is room behind them for where they go, and maybe more. (Of this loop the compiler
// makes a memmove, since the distance is a constant; of the library's copy_within it makes none, and moves take two thirds longer.)
fn up<const PLACES: usize>(part: &mut [u8], n: usize)
    requires { n + PLACES * entry_size ≤ length part.old }
    ensures { part.new ≡ sets part.old (PLACES * entry_size) (take n part.old) }
{
    for k in (0..n).rev() {
        part[k + PLACES * ENTRY] = part[k];
    }
}

// n bytes come down by so many entries, to the front. (A loop, and n beside the bytes, as in `up`.)
fn down<const PLACES: usize>(part: &mut [u8], n: usize)
    requires { n + PLACES * entry_size ≤ length part.old }
    ensures { part.new ≡ sets part.old 0 (take n (drop (PLACES * entry_size) part.old)) }
{
    for k in 0..n {
        part[k] = part[k + PLACES * ENTRY];
    }
}

// Entries go from one place to another, mostly by one, two, four or eight places.
#[tactic(auto, using(crate::proofs::PieceLaws::slid, crate::proofs::PieceLaws::slid_nowhere))]
fn slide(part: &mut [u8], m: Move)
    requires { ((m.from + m.count) * entry_size ≤ length part.old) × ((m.to + m.count) * entry_size ≤ length part.old) }
    ensures { part.new ≡ sets part.old (m.to * entry_size) (piece part.old m.from m.count) }
{
    let from = m.from * ENTRY;
    let to = m.to * ENTRY;
    let n = m.count * ENTRY;
    match m.to.wrapping_sub(m.from) {
        0 => {}
        1 => up::<1>(&mut part[from..], n),
        2 => up::<2>(&mut part[from..], n),
        4 => up::<4>(&mut part[from..], n),
        8 => up::<8>(&mut part[from..], n),
        _ => match m.from.wrapping_sub(m.to) {
            1 => down::<1>(&mut part[to..], n),
            2 => down::<2>(&mut part[to..], n),
            4 => down::<4>(&mut part[to..], n),
            8 => down::<8>(&mut part[to..], n),
            _ => part.copy_within(from..from + n, to),
        },
    }
}

// Two runs of entries go to other places, in the same order: what moves up does so from the upper one on.
fn slide_both(part: &mut [u8], left: Move, right: Move)
    requires { SlideBoth (length part.old) left right }
    ensures { Slid part.old part.new left × Slid part.old part.new right }
{
    if left.from < left.to {
        slide(part, right);
        slide(part, left);
        return;
    }
    slide(part, left);
    slide(part, right);
}

// The place of the first entry once some entries between at and end of count have become next in all: the shorter side moves if it has room, else both do,
// so that as much room is left before the first as after the last.
fn place(first: usize, count: usize, at: usize, end: usize, next: usize) -> usize
    requires { (first + count ≤ limit) × (at ≤ end) × (end ≤ count) × (next ≤ limit) }
    ensures { result + next ≤ limit }
{
    if at + FEW < count - end {
        if next <= first + count {
            return first + count - next;
        }
    } else {
        if first + next <= LIMIT {
            return first;
        }
    }
    (LIMIT - next) / 2
}

// The entry at a place.
#[tactic(auto, using(crate::proofs::WriteLaws::put_entry))]
fn put_entry(part: &mut [u8], i: usize, address: u64, byte: u8)
    requires { i * entry_size + entry_size ≤ length part.old }
    ensures { part.new ≡ sets part.old (i * entry_size) (entry.write (address, byte)) }
{
    let at = i * ENTRY;
    layout::put::<8>(part, at, address);
    part[at + 8] = byte;
}

// The entries of a run from a place on.
fn put_run(part: &mut [u8], i: usize, run: Run)
    requires { (i + run.bytes) * entry_size ≤ length part.old }
    ensures { part.new ≡ sets part.old (i * entry_size) (writes entry (run_of run.address (le run.bytes run.number))) }
{
    let bytes = run.number.to_le_bytes();
    for (k, byte) in bytes[..run.bytes].iter().enumerate() {
        put_entry(part, i + k, run.address + k as u64, *byte);
    }
}

// The bytes of a run in the entries from a place on, whose addresses stay.
fn overwrite(part: &mut [u8], i: usize, run: Run)
    requires { (i + run.bytes) * entry_size ≤ length part.old }
    ensures { part.new ≡ overwritten part.old i (le run.bytes run.number) }
{
    let bytes = run.number.to_le_bytes();
    for (k, byte) in bytes[..run.bytes].iter().enumerate() {
        part[(i + k) * ENTRY + 8] = *byte;
    }
}

// The bytes of a run in place of the entries that have its addresses, if there is room.
fn insert(part: &mut [u8], count: usize, span: Span, run: Run) -> Result<usize, Full>
    requires { Sorted part.old count × Spans (entries part.old count) count span run.address run.bytes }
    ensures { Stores (stores run.address (le run.bytes run.number) (entries part.old count)) part.old part.new result }
{
    let at = span.at;
    let end = span.end;
    let next = at + run.bytes + (count - end);
    if LIMIT < next {
        return Err(Full);
    }
    let first = first_of(part, count);
    let to = place(first, count, at, end, next);
    let left = Move {
        from: first,
        to: to,
        count: at,
    };
    let right = Move {
        from: first + end,
        to: to + at + run.bytes,
        count: count - end,
    };
    slide_both(part, left, right);
    put_run(part, to + at, run);
    layout::put::<2>(part, FIRST, to as u64);
    Ok(next)
}

// The bytes of a run that has all entries on one side, where they stay. The first entry is then at a place that is known.
fn put_beside(part: &mut [u8], count: usize, span: Span, to: usize, run: Run)
    requires sorted { Sorted part.old count × Spliced (entries part.old count) count span run.address run.bytes }
    requires unmoved { Unmoved count (first_in part.old count) span run.bytes to }
    ensures { Holds (stores run.address (le run.bytes run.number) (entries part.old count)) part.new (count + run.bytes) }
{
    put_run(part, to + span.at, run);
    layout::put::<2>(part, FIRST, to as u64);
}

// The bytes of a run, whose entries are known, if there is room. Where it comes after all entries or before all of them, and places are left on that side,
// no entry moves. (Inlined, as the next, since a call would write the run to memory first.)
#[inline(always)]
fn add(part: &mut [u8], count: usize, first: usize, span: Span, run: Run) -> Result<usize, Full>
    requires sorted { Sorted part.old count × Spans (entries part.old count) count span run.address run.bytes }
    requires first_told { first ≡ first_in part.old count }
    ensures { Stores (stores run.address (le run.bytes run.number) (entries part.old count)) part.old part.new result }
{
    if span.at == count && first + count + run.bytes <= LIMIT {
        put_beside(part, count, span, first, run);
        return Ok(count + run.bytes);
    }
    if span.end == 0 && run.bytes <= first {
        put_beside(part, count, span, first - run.bytes, run);
        return Ok(count + run.bytes);
    }
    insert(part, count, span, run)
}

// A run stored: one search, then in the places of its addresses if each has one, else beside all entries or after one move of those on one side.
#[inline(always)]
fn store_run(part: &mut [u8], count: usize, run: Run) -> Result<usize, Full>
    requires { Sorted part.old count }
    ensures { Stores (stores run.address (le run.bytes run.number) (entries part.old count)) part.old part.new result }
{
    let first = first_of(part, count);
    let span = Row::new(part, count).span_of(run.address, run.bytes);
    if span.end - span.at == run.bytes {
        overwrite(part, first + span.at, run);
        return Ok(count);
    }
    add(part, count, first, span, run)
}

// A byte stored at an address.
#[tactic(auto, using(crate::proofs::RunLaws::one_byte, crate::proofs::RunLaws::stores_as))]
pub fn store(part: &mut [u8], count: usize, address: u64, byte: u8) -> Result<usize, Full>
    requires { Sorted part.old count }
    ensures { Stores (store_in address byte (entries part.old count)) part.old part.new result }
{
    let run = Run {
        address,
        number: byte as u64,
        bytes: 1,
    };
    store_run(part, count, run)
}

// The low bytes of a number stored one by one, as addresses wrap. (Divided, and not of `to_le_bytes`: more bytes may be asked for than the eight it gives.)
fn store_each(
    part: &mut [u8],
    count: usize,
    address: u64,
    number: u64,
    bytes: usize,
) -> Result<usize, Full>
    requires { Sorted part.old count }
    ensures { StoresAll (stores address (le bytes number) (entries part.old count)) part.new result }
{
    let mut n = count;
    let mut left = number;
    for i in 0..bytes {
        n = store(part, n, address.wrapping_add(i as u64), (left % 256) as u8)?;
        left = left / 256;
    }
    Ok(n)
}

// The low bytes of a number stored from an address on, the lowest first; addresses wrap.
pub fn store_number(
    part: &mut [u8],
    count: usize,
    address: u64,
    number: u64,
    bytes: usize,
) -> Result<usize, Full>
    requires { Sorted part.old count }
    ensures { StoresAll (stores address (le bytes number) (entries part.old count)) part.new result }
{
    if 0 < bytes && bytes <= 8 && address <= u64::MAX - (bytes as u64 - 1) {
        let run = Run {
            address,
            number,
            bytes,
        };
        return store_run(part, count, run);
    }
    store_each(part, count, address, number, bytes)
}

// The Memory body, at the front of out.
pub fn copy_out(part: &[u8], count: usize, out: &mut [u8])
    requires sorted { Sorted part.now count }
    requires entries_fit { count * entry_size ≤ length out.old }
    ensures { out.new ≡ memory_body (entries part.now count) ++ drop (count * entry_size) out.old }
{
    let from = first_of(part, count) * ENTRY;
    let size = count * ENTRY;
    out[..size].copy_from_slice(&part[from..from + size]);
}
