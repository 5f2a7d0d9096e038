// How many entries of a row come before an address. (Of places and ranks in clauses `row` speaks.)
ghost use Rattle.std.specs.Prelude.{◌≡◌, suc, ◌+◌, ◌-◌, ◌*◌, ◌<◌, ◌≤◌, min, length};
ghost use Rattle.memory.specs.Overlay.{rank};
ghost use Rattle.memory.specs.Post.{IsOverlay, Lies, passed};

use super::row::Row;

impl<'a> Row<'a> {
    // Whether entry i comes before an address, as a number: a sum of such is no branch that the machine could guess wrong.
    #[tactic(auto, using(crate::proofs::SearchLaws::before_is))]
    fn before(&self, i: usize, address: u64) -> usize
        requires { i < length self.now }
        ensures { result ≡ min 1 (rank address self.now - i) }
    {
        (self.address(i) < address) as usize
    }

    // The same of any i, if no entry from the end on comes before the address.
    fn before_end(&self, end: usize, i: usize, address: u64) -> usize
        requires { (end ≤ length self.now) × (rank address self.now ≤ end) }
        ensures { result ≡ min 1 (rank address self.now - i) }
    {
        if i < end { self.before(i, address) } else { 0 }
    }

    // How many of the three entries that part a stretch in quarters come before an address.
    #[tactic(auto, unfolding(crate::specs::Post::passed))]
    fn quarters(&self, base: usize, quarter: usize, address: u64) -> usize
        requires { (base + 3 * quarter < length self.now) × IsOverlay self.now }
        ensures { result ≡ passed (rank address self.now) base quarter }
    {
        self.before(base + quarter, address)
            + self.before(base + 2 * quarter, address)
            + self.before(base + 3 * quarter, address)
    }

    // How many of at most four entries come before an address. (Not `(base..end).filter(..).count()`, which was proved: how many turns it takes is guessed wrong,
    // so that a byte stored at random among 256 takes 1.04 of BTreeMap's time in place of 0.96.)
    #[tactic(auto, using(crate::proofs::SearchLaws::last_are, crate::proofs::SearchLaws::four_fit))]
    fn last_four(&self, base: usize, end: usize, address: u64) -> usize
        requires { Lies self.now address base end × (end ≤ base + 4) }
        ensures { base + result ≡ rank address self.now }
    {
        self.before_end(end, base, address)
            + self.before_end(end, base + 1, address)
            + self.before_end(end, base + 2, address)
            + self.before_end(end, base + 3, address)
    }

    // How many entries come before an address, if it is so many at least, and so many at most: the stretch between is parted in quarters.
    fn between(&self, least: usize, most: usize, address: u64) -> usize
        requires { Lies self.now address least most }
        ensures { result ≡ rank address self.now }
    {
        let mut base = least;
        let mut size = most - least;
        // (Not `partition_point` of the entries as arrays, which was proved: its branch is guessed wrong at random addresses, so that a byte loaded among 256 takes
        // 1.41 of BTreeMap's time in place of 0.65, and stored again 1.71 in place of 0.72.)
        while 4 < size {
            let quarter = size / 4;
            base += quarter * self.quarters(base, quarter, address);
            size -= 3 * quarter;
        }
        base + self.last_four(base, base + size, address)
    }

    // The same where entries may be without gaps.
    fn near(&self, least: usize, most: usize, address: u64) -> usize
        requires { Lies self.now address least most × (most < length self.now) }
        ensures { result ≡ rank address self.now }
    {
        if address <= self.address(least) {
            return least;
        }
        if self.address(most - 1) < address {
            return most;
        }
        self.between(least, most, address)
    }

    // How many entries come before an address, 0 where none does. Entries are at least one apart, so that an address is no farther from the first one and from the
    // last one, in entries, than its distance from theirs.
    // (Inlined, since a call would write the row to memory first.)
    #[inline(always)]
    #[tactic(auto, using(crate::proofs::OverlayLaws::rank_most))]
    pub fn lower(&self, address: u64) -> usize
        ensures { result ≡ rank address self.now }
    {
        let count = self.len();
        if count == 0 {
            return 0;
        }
        let first = self.address(0);
        if address <= first {
            return 0;
        }
        let top = count - 1;
        let last = self.address(top);
        if last < address {
            return count;
        }
        let most = (address - first).min(top as u64) as usize;
        let least = top - (last - address).min(top as u64) as usize;
        self.near(least, most, address)
    }

    // How many entries come before the address past the last one, if at least so many do.
    pub fn past(&self, from: usize, last: u64) -> usize
        requires { from ≤ rank (suc last) self.now }
        ensures { result ≡ rank (suc last) self.now }
    {
        let count = self.len();
        (from..count)
            .find(|i| last < self.address(*i))
            .unwrap_or(count)
    }
}
