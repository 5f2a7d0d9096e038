// The lent workspace while a routine runs: what is written to memory, the variables, the pending note, the registers, tables made once at the start, and
// questions.
// The functions take the whole workspace, and their contracts speak of what its bytes stand for. Each asks in a clause that they are enough: a struct that holds
// the bytes and the fact was tried. It has to promise at each function that it still holds the same bytes, its clauses are no shorter, and where words are
// written in a row its place is read again before each (19 instructions in place of 10 for nine words).
// `stored`, how many entries of memory there are, is beside it: the entries are in a fixed place with room for more, so that no length tells.
#![tactic(auto)]

ghost use Rattle.std.specs.Prelude.{◌≡◌, ◌++◌, ◌*◌, ◌≤◌, length, drop};
ghost use Rattle.layout.specs.Number.{le};
ghost use Rattle.memory.specs.Overlay.{load};
ghost use Rattle.memory.specs.Entries.{entry_size, memory_body};
ghost use Rattle.workspace.specs.View.{view, Fit};
ghost use Rattle.workspace.specs.Post.{StoresCells};

pub mod note;
pub mod registers;
pub mod types;
pub mod variables;

// The least workspace.
pub const SIZE: usize = 65536;

// Where the parts start. What is written to memory stands first; then a slot for each name.
pub const FRAME: usize = memory::PART;

// The pending note.
pub const NOTE: usize = FRAME + variables::BYTES;

// What an evaluation hands on.
pub const REGISTERS: usize = NOTE + note::BYTES;

// A type's code for each name, and two for each type.
pub const DECLARED: usize = REGISTERS + registers::BYTES;

pub const TYPES: usize = DECLARED + variables::NAME_LIMIT;

// The indexes of symbols, regions and blocks.
pub const SYMBOLS: usize = TYPES + types::BYTES;

pub const REGIONS: usize = SYMBOLS + index::symbols::SYMBOLS;

pub const BLOCKS: usize = REGIONS + index::regions::REGIONS;

// The questions that the first pass asks, as far as they fit.
pub const QUESTIONS: usize = BLOCKS + index::blocks::BLOCKS;

// The low bytes of a number stored from an address on, the lowest first; addresses wrap.
#[tactic(auto, unfolding(crate::specs::Parts::memory_part))]
pub fn store_number(
    ws: &mut [u8],
    stored: usize,
    address: u64,
    number: u64,
    bytes: usize,
) -> Result<usize, memory::Full>
    requires { Fit ws.old stored }
    ensures { StoresCells ws.old stored address (le bytes number) ws.new result }
{
    memory::store_number(&mut ws[0..FRAME], stored, address, number, bytes)
}

// The number of the bytes from an address on, those stored or else the image's, if each is there. (Like `store_number` in form alone: each lends the
// memory to the function of its name, one to write to and one to read.)
#[tactic(auto, unfolding(crate::specs::Parts::memory_part, crate::specs::View::view))]
pub fn load_number(
    ws: &[u8],
    stored: usize,
    image: memory::Image,
    address: u64,
    bytes: usize,
) -> Option<u64>
    requires fit { Fit ws.now stored }
    requires bytes_bound { bytes ≤ 8 }
    ensures { result ≡ load (view ws.now stored).memory (le image.count image.number) address bytes }
{
    memory::load_number(&ws[0..FRAME], stored, image, address, bytes)
}

// The Memory body of a record, at the front of out.
#[tactic(auto, unfolding(crate::specs::Parts::memory_part, crate::specs::View::view))]
pub fn copy_memory(ws: &[u8], stored: usize, out: &mut [u8])
    requires fit { Fit ws.now stored }
    requires entries_fit { stored * entry_size ≤ length out.old }
    ensures { out.new ≡ memory_body (view ws.now stored).memory ++ drop (stored * entry_size) out.old }
{
    memory::copy_out(&ws[0..FRAME], stored, out);
}
