// Needs by their sums: needs fit exactly if, for every r, the r largest together do not exceed the
// capacity for r. Plan, search and counts have theirs from here.
ghost use Rattle.std.specs.Prelude.{ℕ, suc, ◌+◌, ◌-◌, ◌*◌, ◌<◌, ◌≤◌, min, ◌≡◌, leb};
ghost use Rattle.laws.specs.Sums.{sum};
ghost use Rattle.laws.specs.Lists.{at};
ghost use Rattle.laws.specs.method.Capacities.{capacity_from, excess_over};
ghost use Rattle.station.specs.Limits.{most_bridges};
ghost use Rattle.placing.specs.method.Limits.{most_placed};
ghost use Rattle.placing.specs.method.Grants.{SumsOf, Raisable, Raised, highest_in};

use crate::limits::{CAPACITY_COUNT, MOST_PLACED};
use station::limits::MOST_BRIDGES;

// The r largest needs together, for r from 0 to 8, and all of them.
#[derive(Clone, Copy, Debug, PartialEq, Eq, Hash)]
pub(crate) struct Sums {
    pub largest: [usize; CAPACITY_COUNT],
    pub total: usize,
}

// Those of no need.
pub(crate) const NO_SUMS: Sums = Sums {
    largest: [0; CAPACITY_COUNT],
    total: 0,
};

// The r largest needs of the others together, where those of all are `all`, the r + 1 largest
// `more`, and the need beside the others is `need`. If that is not among the r largest, they are
// those of the others; else the r + 1 largest without it are.
fn of_others(all: usize, more: usize, need: usize) -> usize
    requires { need ≤ more }
    ensures { result ≡ min all (more - need) }
{
    all.min(more - need)
}

impl Sums {
    // Those of the first `k` needs: each in turn is raised from 0.
    pub(crate) fn of(needs: &[u8; MOST_PLACED], k: usize) -> Sums
        requires { k ≤ most_placed }
        ensures { SumsOf k (at needs.now) result × (result.total ≤ 255 * k) }
    {
        let mut sums = NO_SUMS;
        for i in 0..k {
            sums.raise(0, usize::from(needs[i]));
        }
        sums
    }

    // Raises one need from `need` to `top`: the r + 1 largest are those from before, or the raised
    // need and r of the others. From the last sum on, since each is made of two from before.
    pub(crate) fn raise(&mut self, need: usize, top: usize)
        requires { Raisable self.old need top }
        ensures { Raised self.old.largest need top self.new.largest × (self.new.total ≡ self.old.total - need + top) }
    {
        for r in (0..MOST_BRIDGES).rev() {
            let others = of_others(self.largest[r], self.largest[r + 1], need);
            self.largest[r + 1] = self.largest[r + 1].max(others + top);
        }
        self.total = self.total - need + top;
    }

    // The highest need, up to `limit`, that fits beside the needs of the others, where it is `need`
    // now: the least of what r of the others leave of the capacity for r + 1, and of what all of
    // them leave of that for 8.
    pub(crate) fn highest(&self, need: usize, entries: &[u8; MOST_BRIDGES], limit: usize) -> usize
        requires { (need ≤ self.now.total) × ((r : ℕ) → r < most_bridges → need ≤ at self.now.largest (suc r)) }
        ensures { result ≡ highest_in self.now.largest self.now.total need entries.now limit }
    {
        let mut least = limit;
        let mut capacity = 0;
        for r in 0..MOST_BRIDGES {
            let others = of_others(self.largest[r], self.largest[r + 1], need);
            capacity += usize::from(entries[r]);
            least = least.min(capacity.saturating_sub(others));
        }
        least.min(capacity.saturating_sub(self.total - need))
    }

    // By how much they exceed the capacities at the worst: the r largest that for r, for r from 0
    // to 8, and all of them together that for 8, which is that for more.
    pub(crate) fn excess(&self, entries: &[u8; MOST_BRIDGES]) -> usize
        ensures { result ≡ excess_over (at self.now.largest) self.now.total (capacity_from entries.now) }
    {
        let mut most = self.largest[0];
        let mut capacity = 0;
        for r in 0..MOST_BRIDGES {
            capacity += usize::from(entries[r]);
            most = most.max(self.largest[r + 1].saturating_sub(capacity));
        }
        most.max(self.total.saturating_sub(capacity))
    }

    // Whether they lack as many cells as `short`, or more: whether they exceed the capacities by as
    // much at some r. `enough` is what a sum has to reach for that.
    pub(crate) fn lacks(&self, entries: &[u8; MOST_BRIDGES], short: usize) -> bool
        requires { (0 < short) × (short ≤ 255 * most_placed) }
        ensures { result ≡ leb short (excess_over (at self.now.largest) self.now.total (capacity_from entries.now)) }
    {
        let mut enough = short;
        for r in 0..MOST_BRIDGES {
            if enough <= self.largest[r] {
                return true;
            }
            enough += usize::from(entries[r]);
        }
        enough <= self.largest[MOST_BRIDGES] || enough <= self.total
    }
}
