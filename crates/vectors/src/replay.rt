// The cases of the file, one after the other, each run and compared.
use crate::answers::Rooms;
use crate::cases::Store;
use crate::tally::Tally;
use crate::{answers, cases};
use std::io;
use std::io::Read;

// The file's first bytes, `VEC2`, as a number.
const KIND: u32 = 0x3243_4556;

// The most bytes of a case.
const LONGEST: usize = 65536;

// The next number of the file.
fn word<R: Read>(reader: &mut R) -> Option<u32> {
    let mut bytes = [0u8; 4];
    reader.read_exact(&mut bytes).ok()?;
    Some(u32::from_le_bytes(bytes))
}

// The file's first words: `VEC2` and the count of cases, more than any file has where it ends there; 0 for another file.
fn count<R: Read>(rt: &impl Print, reader: &mut R) -> io::Result<u32> {
    if word(reader) != Some(KIND) {
        println!(rt; "it is no file of cases")?;
        return Ok(0);
    }
    Ok(word(reader).unwrap_or(u32::MAX))
}

// The bytes of the next case, behind their length u32; none where they are too many, or the file has not so many.
fn next<'a, R: Read>(reader: &mut R, page: &'a mut [u8; LONGEST]) -> Option<&'a [u8]> {
    let size = word(reader)?;
    let case = page.get_mut(..size as usize)?;
    reader.read_exact(case).ok()?;
    Some(case)
}

// So many cases, up to the first that is not well made.
fn compare<R: Read>(rt: &impl Print, reader: &mut R, count: u32) -> io::Result<Tally> {
    let mut tally = Tally::default();
    let marks = answers::marks();
    let mut rooms = Rooms::new();
    let mut store = Store::new();
    let mut page = [0; LONGEST];
    for i in 0..count {
        let Some(bytes) = next(reader, &mut page) else {
            break;
        };
        let Ok(case) = cases::take(bytes, &mut store) else {
            break;
        };
        let good = answers::agrees(&marks, &mut rooms, case, &store);
        if !good {
            println!(rt; "not as the original answered: case {i}")?;
        }
        tally.count(case, good);
    }
    Ok(tally)
}

// `VEC2`, the count of cases u32, and for each its length u32 and its bytes. Nothing comes after the last one.
pub fn replay<R: Read + Drop>(rt: &impl Print, mut reader: R) -> io::Result<()> {
    let count = count(rt, &mut reader)?;
    let tally = compare(rt, &mut reader, count)?;
    if reader.read(&mut [0; 1])? != 0 {
        println!(rt; "the file goes on after its cases")?;
    }
    tally.say(rt, count)
}
