// Reads from readers of its own, and says whether their bytes came, and their error.
#![tactic(auto)]

use std::io;
use std::io::Read;

// A reader that breaks off behind its bytes.
#[derive(Drop)]
struct Torn<'a> {
    bytes: &'a [u8],
}

impl<'a> Read for Torn<'a> {
    fn read(&mut self, buf: &mut [u8]) -> io::Result<usize> {
        if self.bytes.is_empty() {
            return Err(io::ErrorKind::BrokenPipe.into());
        }
        self.bytes.read(buf)
    }
}

// Whether a buffer comes to hold these bytes.
fn gives(reader: &mut impl Read, buffer: &mut [u8], bytes: &[u8]) -> bool {
    match reading::read_full(reader, buffer) {
        Ok(size) => buffer.get(..size) == Some(bytes),
        Err(_) => false,
    }
}

fn main(rt: HostRuntime) -> io::Result<()> {
    let bytes = b"twelve bytes".as_slice();
    let all = gives(&mut b"twelve bytes".as_slice(), &mut [0; 20], bytes);
    let mut parts = b"twelve ".as_slice().chain(b"bytes".as_slice());
    let joined = gives(&mut parts, &mut [0; 20], bytes);
    let mut reader = bytes;
    let none = gives(&mut reader, &mut [], b"");
    let front = gives(&mut reader, &mut [0; 6], b"twelve");
    let behind = gives(&mut reader, &mut [0; 20], b" bytes");
    let torn = reading::read_full(&mut Torn { bytes }, &mut [0; 20]).is_err();
    println!(rt; "all is read: {all}, in parts: {joined}")?;
    println!(rt; "no more than the buffer holds: {front}")?;
    println!(rt; "the rest comes next: {behind}, an empty buffer gets none: {none}")?;
    println!(rt; "an error is passed on: {torn}")
}
