// Replays the cases of data/vectors.bin, which the original answered, and says how many of each kind agree.
#![tactic(auto)]

mod answers;
mod cases;
mod coding;
mod replay;
mod tally;

use std::fs::File;
use std::io;

fn main(rt: HostRuntime) -> io::Result<()> {
    let path = "vectors.bin";
    match File::open(&rt, path) {
        Ok(file) => replay::replay(&rt, file),
        Err(e) => eprintln!(rt; "{path}: {e}"),
    }
}
