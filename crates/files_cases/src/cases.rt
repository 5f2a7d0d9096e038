// Cases in pages: a name, the expected number and node, and the files, each coded as pieces that stand there so many times.
ghost use Rattle.std.specs.Prelude.{◌≤◌, length};

use bytes::Buf;
use files::refusal::Refusal;
use std::io;

// The most bytes that a file may have.
const SPACE: usize = 65536;

// Where the files of a case are put together.
#[derive(Drop)]
pub struct Space {
    routine: [u8; SPACE],
    world: [u8; SPACE],
    call: [u8; SPACE],
}

impl Space {
    pub fn new() -> Self {
        Self {
            routine: [0; SPACE],
            world: [0; SPACE],
            call: [0; SPACE],
        }
    }
}

// The bytes at the front of a page, so many, or all that are left.
fn front<'a>(page: &mut &'a [u8], size: usize) -> &'a [u8] {
    let (bytes, rest) = page.split_at(size.min(page.len()));
    *page = rest;
    bytes
}

// Numbers at the front of a page, 0 where it ends within them.
fn byte(page: &mut &[u8]) -> u8 {
    front(page, 1).try_get_u8().unwrap_or(0)
}

fn half(page: &mut &[u8]) -> u16 {
    front(page, 2).try_get_u16_le().unwrap_or(0)
}

fn word(page: &mut &[u8]) -> u32 {
    front(page, 4).try_get_u32_le().unwrap_or(0)
}

// Bytes over and over, the first time as they are, then as many as stand there already: a piece may have one byte and stand there 65,536 times.
fn fill(part: &mut [u8], bytes: &[u8]) {
    let mut done = bytes.len().min(part.len());
    part[..done].copy_from_slice(&bytes[..done]);
    while 0 < done && done < part.len() {
        let more = done.min(part.len() - done);
        part.copy_within(..more, done);
        done += more;
    }
}

// The bytes, so many times, at the end of what a file has so far: where it ends then. Nothing is put past the space that there is.
fn repeat(bytes: &[u8], times: u32, file: &mut [u8], start: usize) -> usize
    requires { start ≤ length file.old }
    ensures { result ≤ length file.new }
{
    if bytes.is_empty() {
        return start;
    }
    let room = file.len() - start;
    let whole = room - room % bytes.len();
    let size = whole.min(bytes.len().saturating_mul(times as usize));
    let end = start + size;
    fill(&mut file[start..end], bytes);
    end
}

// The file coded at the front of a page, put together: where it ends.
fn unpack(page: &mut &[u8], file: &mut [u8; SPACE]) -> usize
    ensures in_bounds { result ≤ length file.new }
    ensures short { result ≤ 65536 }
{
    let mut done = 0;
    for _ in 0..half(page) {
        let times = word(page);
        let size = word(page) as usize;
        done = repeat(front(page, size), times, file, done);
    }
    done
}

// A case of three files.
fn run(page: &mut &[u8], space: &mut Space) -> Result<(), Refusal> {
    let routine = unpack(page, &mut space.routine);
    let world = unpack(page, &mut space.world);
    let call = unpack(page, &mut space.call);
    files::check(
        &space.routine[..routine],
        &space.world[..world],
        &space.call[..call],
    )
}

// A case of a node and its routine.
fn constant(page: &mut &[u8], space: &mut Space) -> Result<(), Refusal> {
    let node = word(page) as usize;
    let routine = unpack(page, &mut space.routine);
    files::check_constant(&space.routine[..routine], node)
}

// Reports a case whose files are not refused by this number, or not with this node.
fn report(
    rt: &impl Print,
    name: &[u8],
    number: u32,
    node: u32,
    checked: Result<(), Refusal>,
) -> io::Result<()> {
    let (found, at) = match checked {
        Ok(()) => (0, 0),
        Err(refusal) => (u32::from(refusal), refusal.node()),
    };
    if found == number && at == node {
        return Ok(());
    }
    rt.write_all(name)?;
    println!(rt; ": expected {number} and node {node}, found {found} and node {at}")
}

// The case at the front of a page.
fn compare(rt: &impl Print, page: &mut &[u8], space: &mut Space) -> io::Result<()> {
    let size = byte(page) as usize;
    let name = front(page, size);
    let number = byte(page) as u32;
    let node = word(page);
    let checked = match byte(page) {
        1 => constant(page, space),
        _ => run(page, space),
    };
    report(rt, name, number, node, checked)
}

// The cases of a page: how many there are. It ends at a name of no byte.
pub fn compare_page(rt: &impl Print, mut page: &[u8], space: &mut Space) -> io::Result<usize> {
    let most = page.len();
    // Each case has bytes of its own.
    for count in 0..most {
        if page.first().is_none_or(|size| *size == 0) {
            return Ok(count);
        }
        compare(rt, &mut page, space)?;
    }
    Ok(most)
}
