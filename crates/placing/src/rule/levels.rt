// Who gets a cell in one slot: largest remaining time first. The jobs are kept by levels, a mask a
// level: level l has, as one bit each, those that still need l slots, so that whoever goes down the
// levels meets those with the most slots still to get first.
ghost use Rattle.std.specs.Prelude.{◌≡◌, ◌&&◌, cond, ℕ, ◌-◌, ◌<◌, ◌≤◌, length, replicate, ltb, eqb};
ghost use Rattle.laws.specs.Sums.{count};
ghost use Rattle.laws.specs.Lists.{at};
ghost use Rattle.station.specs.Head.{has_bit};
ghost use Rattle.placing.specs.method.Limits.{most_placed, level_count};
ghost use Rattle.placing.specs.method.Rule.{without, first_few, first_held, Levelled, Served};

use crate::limits::MOST_PLACED;
use station::limits::MOST_LENGTH;

// How many levels there are: for those that still need 0 to as many slots as the longest job.
pub(crate) const LEVELS: usize = MOST_LENGTH as usize + 1;

// Puts the first k jobs into levels in which nobody stands, and answers the highest level of a job,
// or 0.
pub(crate) fn enter(levels: &mut [u64; LEVELS], needs: &[u8; MOST_PLACED], k: usize) -> usize
    requires { (k ≤ most_placed) × ((i : ℕ) → i < k → at needs.now i < level_count) × (levels.old ≡ replicate level_count 0) }
    ensures { (length levels.new ≡ level_count)
        × ((l i : ℕ) → has_bit (at levels.new l) i ≡ (ltb i k && eqb (at needs.now i) l))
        × (result < level_count) × ((i : ℕ) → i < k → at needs.now i ≤ result) }
{
    let mut top: usize = 0;
    for i in 0..k {
        let l = usize::from(needs[i]);
        levels[l] |= 1 << i;
        top = top.max(l);
    }
    top
}

// The highest level from `from` down in which somebody stands that is not in the mask `served`, or
// 0.
pub(crate) fn highest(levels: &[u64; LEVELS], from: usize, served: u64) -> usize
    requires { from < level_count }
    ensures { (result ≤ from) × ((l : ℕ) → result < l → l ≤ from → without (at levels.now l) served ≡ 0) }
{
    for l in (1..=from).rev() {
        let level = levels[l];
        if level ^ (level & served) != 0 {
            return l;
        }
    }
    0
}

// The first jobs of a mask, and how many more were asked for.
#[derive(Clone, Copy, Debug, PartialEq, Eq, Hash)]
pub(crate) struct First {
    pub jobs: u64,
    pub more: usize,
}

// The first d jobs of a mask, or all of it: "Equal ones: the earlier line first". The lowest bits
// go one by one, which costs less than to count them.
fn first_of(mask: u64, d: usize) -> First
    ensures { ((i : ℕ) → i < most_placed → has_bit result.jobs i ≡ first_few (has_bit mask) d i) × (result.more ≡ d - count most_placed (has_bit mask)) }
{
    let mut rest = mask;
    for taken in 0..d {
        if rest == 0 {
            return First {
                jobs: mask,
                more: d - taken,
            };
        }
        rest &= rest - 1;
    }
    First {
        jobs: mask ^ rest,
        more: 0,
    }
}

// The first d jobs of a mask, those that are held before the others, or all of it.
fn first_held(mask: u64, held: u64, d: usize) -> First
    ensures { ((i : ℕ) → i < most_placed → has_bit result.jobs i ≡ first_held (has_bit held) (has_bit mask) d i) × (result.more ≡ d - count most_placed (has_bit mask)) }
{
    let stay = first_of(mask & held, d);
    let come = first_of(mask ^ (mask & held), stay.more);
    First {
        jobs: stay.jobs | come.jobs,
        more: come.more,
    }
}

// The jobs that get one of d cells, where nobody stands above level `top`; of those that need the
// same the held ones go first. Each of them moves to the level below; there it is passed over,
// since it has got a cell.
pub(crate) fn choose(levels: &mut [u64; LEVELS], top: usize, d: usize, held: u64) -> u64
    requires { (top < level_count) × (length levels.old ≡ level_count) }
    ensures { (length levels.new ≡ level_count)
        × ((c : ℕ → ℕ) → Levelled levels.old c → ((i : ℕ) → i < most_placed → c i ≤ top) → Served levels.new c (has_bit held) d result) }
{
    let mut served = 0;
    let mut rest = d;
    let mut l = top;
    // From one level in which somebody waits to the next: with every level looked at in this loop,
    // a plan of few presets takes a quarter longer.
    while 0 < l {
        let level = levels[l];
        let first = first_held(level ^ (level & served), held, rest);
        levels[l] = level ^ first.jobs;
        levels[l - 1] |= first.jobs;
        served |= first.jobs;
        rest = first.more;
        if rest == 0 {
            return served;
        }
        l = highest(levels, l - 1, served);
    }
    served
}
