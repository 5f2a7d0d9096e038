// The cases of the file. What a case lends comes in four sorts: the three files, and the record; the last bytes of each sort stay, since the
// next case follows from them.
use crate::coding::{Sort, follow};
use anyhow::ensure;
use bytes::Buf;
use emulate::Answer;

#[derive(Drop)]
pub struct Store {
    pub routine: Sort,
    pub world: Sort,
    pub call: Sort,
    pub record: Sort,
}

impl Store {
    pub fn new() -> Self {
        Self {
            routine: Sort::new(),
            world: Sort::new(),
            call: Sort::new(),
            record: Sort::new(),
        }
    }
}

// A run with buffers of two lengths, and the answer. Where its number is 0 the record is in the store.
#[derive(Clone, Copy)]
pub struct Run {
    pub record: usize,
    pub workspace: usize,
    pub answer: Answer,
}

// The value of a constant with a workspace of a length, and the answer.
#[derive(Clone, Copy)]
pub struct Constant {
    pub node: u32,
    pub workspace: usize,
    pub answer: emulate::Constant,
}

#[derive(Clone, Copy)]
pub enum Case {
    Run(Run),
    Constant(Constant),
}

// routine, world, call, record buffer length u32, workspace length u32, number u8, length u32 (or the faulty node's number), record
fn take_run(case: &mut &[u8], store: &mut Store) -> anyhow::Result<Run> {
    follow(case, &mut store.routine)?;
    follow(case, &mut store.world)?;
    follow(case, &mut store.call)?;
    let run = Run {
        record: case.try_get_u32_le()? as usize,
        workspace: case.try_get_u32_le()? as usize,
        answer: Answer {
            number: case.try_get_u8()? as u32,
            length: case.try_get_u32_le()?,
        },
    };
    // Only number 0 has a record; else the last one stays.
    if run.answer.number == 0 {
        follow(case, &mut store.record)?;
    }
    Ok(run)
}

// routine, node u32, workspace length u32, refusal u8, known u8, signed u8, bits u32, number u64
fn take_constant(case: &mut &[u8], store: &mut Store) -> anyhow::Result<Constant> {
    follow(case, &mut store.routine)?;
    Ok(Constant {
        node: case.try_get_u32_le()?,
        workspace: case.try_get_u32_le()? as usize,
        answer: emulate::Constant {
            refusal: case.try_get_u8()? as u32,
            known: case.try_get_u8()? == 1,
            signed: case.try_get_u8()? == 1,
            bits: case.try_get_u32_le()?,
            number: case.try_get_u64_le()?,
        },
    })
}

// A case, and the files that it lends put into the store.
pub fn take(mut case: &[u8], store: &mut Store) -> anyhow::Result<Case> {
    let taken = match case.try_get_u8()? {
        0 => Case::Run(take_run(&mut case, store)?),
        1 => Case::Constant(take_constant(&mut case, store)?),
        kind => anyhow::bail!("no case is of kind {kind}"),
    };
    ensure!(!case.has_remaining(), "a case goes on after its end");
    Ok(taken)
}
