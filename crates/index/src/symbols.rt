// The world's symbol of a routine's name. The index: for each name of the routine, in two bytes, 0 for no symbol, else 1 more than the symbol's number.
ghost use Rattle.std.specs.Prelude.{◌≡◌, ◌+◌, ◌*◌, ◌^◌, ◌≤◌, ◌<◌, length};
ghost use Rattle.layout.specs.Number.{number_at};
ghost use Rattle.files.specs.Names.{names_in};
ghost use Rattle.index.specs.Places.{place_from, text_size};
ghost use Rattle.index.specs.Symbols.{symbols_room, symbol_place, entry_of, Symbols, Standing, Passed, Sought, SymbolInside, SymbolsIndexed, AddressOf, SizeOf};

use crate::texts::{text_at, texts};
use files::world::SYMBOL;
use std::cmp::Ordering;

// The bytes of the index: at most 512 names.
pub const SYMBOLS: usize = 1024;

// Where the search for a name stands: before a symbol, at a world name not past that symbol's.
#[derive(Clone, Copy, Default)]
struct Cursor {
    symbol: usize,
    name: usize,
    at: usize,
}

// Where the symbol of a name is.
fn place_of(part: &[u8], name: usize) -> Option<usize>
    requires { name * 2 + 2 ≤ length part.now }
    ensures { result ≡ symbol_place (number_at part.now (name * 2) 2) }
{
    let symbol = (layout::get::<2>(part, name * 2) as usize).checked_sub(1)?;
    Some(symbol * SYMBOL)
}

// The address of the symbol of a name.
pub fn address_of(symbols: &[u8], part: &[u8], name: usize) -> Option<u64>
    requires { SymbolInside symbols.now part.now name }
    ensures { AddressOf symbols.now part.now name result }
{
    let at = place_of(part, name)?;
    Some(layout::get::<8>(symbols, at + 3))
}

// Its size, where it is told.
pub fn size_of(symbols: &[u8], part: &[u8], name: usize) -> Option<u64>
    requires { SymbolInside symbols.now part.now name }
    ensures { SizeOf symbols.now part.now name result }
{
    let at = place_of(part, name)?;
    let size = layout::get::<1>(symbols, at + 2);
    (size != 0).then_some(size)
}

// The place of the name so many names on. (A place, and no text of `TextsOf`: the search stands before this name, and the next one may look at it again, while an
// iterator has passed what it gave.)
#[tactic(auto, using(crate::proofs::TextIndex::skip_inside, crate::proofs::TextIndex::skip_next), unfolding(crate::specs::Places::place_from))]
fn skip(names: &[u8], at: usize, steps: usize) -> usize
    requires { place_from (text_size names.now) at steps ≤ length names.now }
    ensures { result ≡ place_from (text_size names.now) at steps }
{
    let mut place = at;
    for _step in 0..steps {
        place = place + layout::get::<1>(names, place) as usize + 1;
    }
    place
}

// On to the first symbol whose name does not come before a name, and its number if it has that name. (The symbols passed are not looked at again: a cursor
// goes on through them, name by name of the routine.)
#[tactic(auto, using(crate::proofs::SymbolSearch::seek_skip, crate::proofs::SymbolSearch::seek_inside))]
fn seek(world_names: &[u8], symbols: &[u8], from: Cursor, name: &[u8]) -> (Cursor, Option<usize>)
    requires { (Symbols world_names.now symbols.now) × ((Standing world_names.now symbols.now from.symbol from.name from.at) × (Passed world_names.now symbols.now from.symbol name.now)) }
    ensures { Sought world_names.now symbols.now name.now result.0 result.1 }
{
    let mut cursor = from;
    for symbol in from.symbol..symbols.len() / SYMBOL {
        let wanted = layout::get::<2>(symbols, symbol * SYMBOL) as usize;
        cursor.at = skip(world_names, cursor.at, wanted - cursor.name);
        cursor.name = wanted;
        match text_at(world_names, cursor.at).cmp(&name) {
            Ordering::Less => cursor.symbol = symbol + 1,
            Ordering::Equal => return (cursor, Some(symbol)),
            Ordering::Greater => return (cursor, None),
        }
    }
    (cursor, None)
}

// What the index says of a name's symbol: 0 for none, else 1 more than its number.
fn entry_of(found: Option<usize>) -> u64
    requires { entry_of found < 2 ^ 64 }
    ensures { result ≡ entry_of found }
{
    found.map_or(0, |symbol| symbol as u64 + 1)
}

// The index of the routine's names: one merge of them with the symbols, whose names ascend as they do.
#[tactic(auto, using(crate::proofs::SymbolMerge::merge_done))]
pub fn fill_symbols(routine_names: &[u8], world_names: &[u8], symbols: &[u8], part: &mut [u8])
    requires { (1 ≤ names_in routine_names.now) × ((length routine_names.now < 65536) × ((Symbols world_names.now symbols.now) × (symbols_room ≤ length part.old))) }
    ensures { SymbolsIndexed routine_names.now world_names.now symbols.now part.new }
{
    let mut cursor = Cursor::default();
    for (k, name) in texts(routine_names).enumerate() {
        let (next, found) = seek(world_names, symbols, cursor, name);
        cursor = next;
        layout::put::<2>(part, k * 2, entry_of(found));
    }
}
