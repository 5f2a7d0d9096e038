// Runs the value layer on rows that the original answered, and says how many rows of each file agree.
#![tactic(auto)]

ghost use Rattle.std.specs.Prelude.{◌<◌, ◌*◌, ◌≤◌};

mod equal;
mod rows;

use std::io::Read;
use std::rt::Files;
use std::{fs, io};

// The most bytes that are read at a time.
const PAGE: usize = 16200;

// A file of rows of one length, and what they are about. So many of them are read at a time: where the file ends within those, none of them agrees.
#[derive(Clone, Copy)]
pub struct Cases {
    pub what: &'static str,
    pub path: &'static str,
    pub length: usize,
    pub rows: usize,
    pub together: usize,
}

// How many of a file's rows agree. No more is read of it than they have.
fn agreeing<R: Read, F: Fn(usize, &[u8]) -> anyhow::Result<bool>>(
    reader: &mut R,
    cases: Cases,
    agrees: F,
) -> usize
    requires long { 0 < cases.length }
    requires some { 0 < cases.together }
    requires fits { cases.length * cases.together ≤ 16200 }
    requires callable { F.IsAlwaysCallable agrees }
{
    let mut space = [0; PAGE];
    let page = &mut space[..cases.length * cases.together];
    let mut good: usize = 0;
    for first in (0..cases.rows).step_by(cases.together) {
        if reader.read_exact(page).is_ok() {
            let more = page
                .chunks_exact(cases.length)
                .enumerate()
                .filter(|(i, row)| agrees(first.wrapping_add(*i), *row).is_ok_and(|good| good))
                .count();
            good = good.wrapping_add(more);
        }
    }
    good
}

// Says how many of a file's rows agree; none does where it cannot be opened. A row may count on its number.
fn compare<F: Fn(usize, &[u8]) -> anyhow::Result<bool>>(
    rt: &(impl Files + Print),
    cases: Cases,
    agrees: F,
) -> io::Result<()>
    requires long { 0 < cases.length }
    requires some { 0 < cases.together }
    requires fits { cases.length * cases.together ≤ 16200 }
    requires callable { F.IsAlwaysCallable agrees }
{
    let Cases {
        what,
        path,
        rows,
        ..
    } = cases;
    let good = match fs::open(rt, path) {
        Ok(mut reader) => agreeing(&mut reader, cases, agrees),
        Err(_) => 0,
    };
    println!(rt; "{what}: {good} of {rows}")
}

fn main(rt: HostRuntime) -> io::Result<()> {
    compare(&rt, equal::CASES, equal::agrees)?;
    compare(&rt, rows::MIXED, |_, row| rows::mixed(row))?;
    compare(&rt, rows::CASTS, |_, row| rows::cast(row))?;
    compare(&rt, rows::TYPES, |_, row| rows::spelled(row))
}
