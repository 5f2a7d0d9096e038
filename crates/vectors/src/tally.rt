// How many cases of each kind there were, and how many of them agreed.
use crate::cases::Case;
use std::io;

#[derive(Clone, Copy, Default)]
struct Score {
    good: u64,
    all: u64,
}

impl Score {
    fn count(&mut self, good: bool) {
        self.good = self.good.wrapping_add(good as u64);
        self.all = self.all.wrapping_add(1);
    }
}

#[derive(Clone, Copy, Default)]
pub struct Tally {
    runs: Score,
    constants: Score,
}

impl Tally {
    pub fn count(&mut self, case: Case, good: bool) {
        match case {
            Case::Run(_) => self.runs.count(good),
            Case::Constant(_) => self.constants.count(good),
        }
    }

    pub fn say(self, rt: &impl Print, cases: u32) -> io::Result<()> {
        let Tally { runs, constants } = self;
        println!(rt; "runs that agree: {} of {}", runs.good, runs.all)?;
        println!(rt;
            "values of constants that agree: {} of {}",
            constants.good, constants.all
        )?;
        println!(rt;
            "cases compared: {} of {cases}",
            runs.all.wrapping_add(constants.all)
        )
    }
}
