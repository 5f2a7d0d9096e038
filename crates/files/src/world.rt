// A world: names, symbols and regions.
ghost use Rattle.std.specs.Prelude.{◌≡◌, ◌&&◌, ◌||◌, ◌+◌, ◌-◌, ◌*◌, ◌<◌, ◌≤◌, ◌/◌, eqb, ltb, leb, length, IfSome};
ghost use Rattle.layout.specs.Number.{number_at};
ghost use Rattle.files.specs.Names.{names_in};
ghost use Rattle.files.specs.Refusal.{names_of};
ghost use Rattle.files.specs.World.{unless_zero};
ghost use Rattle.files.specs.WorldFile.{Before, Came, symbols_ok, region_at, regions_in};

use crate::names;
use crate::names::Texts;

// The bytes of a symbol, and of a region before its own bytes.
pub const SYMBOL: usize = 11;

pub const REGION: usize = 12;

#[tactic(auto, using(crate::proofs::WorldLaws::symbols_odd, crate::proofs::WorldLaws::symbols_start, crate::proofs::WorldLaws::symbols_each, crate::proofs::WorldLaws::symbols_next, crate::proofs::WorldLaws::symbols_on, crate::proofs::WorldLaws::symbols_good), unfolding(crate::specs::Items::every))]
fn check_symbols(b: &[u8], names: usize) -> bool
    ensures { result ≡ symbols_ok b.now names }
{
    if b.len() % SYMBOL != 0 {
        return false;
    }
    let count = b.len() / SYMBOL;
    let mut least = 0;
    for k in 0..count {
        let name = layout::get::<2>(b, k * SYMBOL) as usize;
        if name < least {
            return false;
        }
        if names <= name {
            return false;
        }
        least = name + 1;
    }
    true
}

// Whether an address is past the last one of the region before, if there is one.
#[tactic(auto, using(crate::proofs::WorldLaws::past))]
fn is_past(last: Option<u64>, at: u64) -> bool
    ensures { (s : Before) → Came last s → result ≡ (eqb s.count 0 || ltb s.last at) }
{
    last.is_none_or(|last| last < at)
}

// The length of the region at i, where the last address of the one before it is `last`. (i is a place in the whole body, as in the definition that the contract
// names.)
fn region_at(b: &[u8], last: Option<u64>, i: usize) -> Option<usize>
    requires { i < length b.now }
    ensures region { (s : Before) → Came last s → result ≡ unless_zero (region_at b.now s i) }
    ensures within { IfSome result (λ k. (13 ≤ k) × (i + k ≤ length b.now)) }
    ensures ends { IfSome result (λ k. number_at b.now i 8 + (k - 13) < 18446744073709551616) }
{
    if b.len() - i < REGION {
        return None;
    }
    let at = layout::get::<8>(b, i);
    let size = layout::get::<4>(b, i + 8);
    if size == 0 {
        return None;
    }
    // The last address is at + (size - 1): a region may end at 2^64, which no u64 holds.
    if u64::MAX - at < size - 1 {
        return None;
    }
    if b.len() - (i + REGION) < size as usize {
        return None;
    }
    if !is_past(last, at) {
        return None;
    }
    Some(size as usize + REGION)
}

// By lengths, as names: where the next region is only a region's own length says.
fn check_regions(b: &[u8]) -> bool
    ensures { result ≡ leb 1 (regions_in b.now) }
{
    let mut last = None;
    let mut i = 0;
    while i < b.len() {
        let Some(k) = region_at(b, last, i) else {
            return false;
        };
        last = Some(layout::get::<8>(b, i) + (k - (REGION + 1)) as u64);
        i += k;
    }
    true
}

#[tactic(auto, using(crate::proofs::NameLaws::no_names, crate::proofs::NameLaws::some_names))]
pub fn check(names: &[u8], symbols: &[u8], regions: &[u8]) -> bool
    ensures { result ≡ (leb 1 (names_in names.now) && symbols_ok symbols.now (names_of names.now) && leb 1 (regions_in regions.now)) }
{
    let Some(n) = names::count(names, Texts::NAMES) else {
        return false;
    };
    if !check_symbols(symbols, n) {
        return false;
    }
    check_regions(regions)
}
