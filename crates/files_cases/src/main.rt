// Runs each case of data/cases.bin, which tools/files_reference.py writes, through the checks of the files, and compares the numbers and nodes.
#![tactic(auto)]

mod cases;

use std::fs::File;
use std::io;

// The cases stand in pages of so many bytes, the last one in fewer.
const PAGE: usize = 65536;

// All pages, up to one with no case. Nothing says that a file ends, so the pages are counted.
fn compare(rt: &impl Print, mut file: File) -> io::Result<()> {
    let mut count: usize = 0;
    let mut page = [0; PAGE];
    let mut space = cases::Space::new();
    for _ in 0..1000 {
        let size = reading::read_full(&mut file, &mut page)?;
        let more = cases::compare_page(rt, &page[..size], &mut space)?;
        if more == 0 {
            break;
        }
        count = count.wrapping_add(more);
    }
    println!(rt; "{count} cases compared")
}

fn main(rt: HostRuntime) -> io::Result<()> {
    let path = "cases.bin";
    match File::open(&rt, path) {
        Ok(file) => compare(&rt, file),
        Err(e) => eprintln!(rt; "{path}: {e}"),
    }
}
