// Prints the listing of the run that routine.bin, world.bin and call.bin of the working folder tell of.
#![tactic(auto)]

mod run;

ghost use Rattle.std.specs.Prelude.{◌≤◌, IfOk};
ghost use Rattle.std.specs.Io.{ReadsAtMost};

use std::rt::Files;
use std::{fs, io};

// The most bytes that are read of a file, as many as no file may have.
const MOST: usize = 65536;

// The bytes of a file at the start of a buffer, and how many. A file that cannot be opened is taken as empty; of a longer one the run is refused by its number.
fn read_file(rt: &impl Files, path: &str, buffer: &mut [u8; MOST]) -> io::Result<usize>
    ensures there { ReadsAtMost result buffer.new }
    ensures short { IfOk result (λ n. n ≤ 65536) }
{
    match fs::open(rt, path) {
        Ok(mut file) => reading::read_full(&mut file, buffer),
        Err(_) => Ok(0),
    }
}

fn main(rt: HostRuntime) -> io::Result<()> {
    let mut routine = [0; MOST];
    let mut world = [0; MOST];
    let mut call = [0; MOST];
    let mut record = [0; 65536];
    let mut workspace = [0; 65536];
    let r = read_file(&rt, "routine.bin", &mut routine)?;
    let w = read_file(&rt, "world.bin", &mut world)?;
    let c = read_file(&rt, "call.bin", &mut call)?;
    run::print_listing(
        &rt,
        &routine[..r],
        &world[..w],
        &call[..c],
        &mut record,
        &mut workspace,
    )
}
