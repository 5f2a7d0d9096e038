// The bytes of a file as they follow from the last ones of its sort.
use anyhow::{Context, ensure};
use arrayvec::ArrayVec;
use bytes::Buf;

// The bytes of a sort are at most so many: the longest record buffer of the file has 110,173.
pub const LONGEST: usize = 131072;

// What cannot be put among the bytes of a sort is not well made.
pub type Sort = ArrayVec<u8, LONGEST>;

// A run of bytes: a number below 128 is one less than their count, another 127 more than a count of zeros.
fn piece(case: &mut &[u8], file: &mut Sort) -> anyhow::Result<()> {
    let count = case.try_get_u8()? as usize;
    let bytes = if count < 128 {
        case.split_off(..count + 1).context("the file ends early")?
    } else {
        &[0; 128][..count - 127]
    };
    file.try_extend_from_slice(bytes)?;
    Ok(())
}

// Bytes written whole: their length, then runs until it is reached.
fn whole(case: &mut &[u8], file: &mut Sort) -> anyhow::Result<()> {
    let size = case.try_get_u32_le()? as usize;
    ensure!(size <= LONGEST, "a file is too long");
    file.clear();
    // Each run has a byte at least, so that no more are needed than there are bytes.
    for _ in 0..size {
        if file.len() < size {
            piece(case, file)?;
        }
    }
    ensure!(file.len() == size, "a file is longer than it says");
    Ok(())
}

// The last bytes with some changed: for each a place u32 and the byte that it has now.
fn changed(case: &mut &[u8], file: &mut Sort) -> anyhow::Result<()> {
    for _ in 0..case.try_get_u8()? {
        let place = case.try_get_u32_le()? as usize;
        let byte = case.try_get_u8()?;
        *file.get_mut(place).context("a change past the end")? = byte;
    }
    Ok(())
}

// The bytes coded at the front of a case: the same as the last ones, whole, or with some changed.
pub fn follow(case: &mut &[u8], file: &mut Sort) -> anyhow::Result<()> {
    match case.try_get_u8()? {
        0 => Ok(()),
        1 => whole(case, file),
        2 => changed(case, file),
        code => anyhow::bail!("no bytes are coded by {code}"),
    }
}
