// How many slots have at least one, two, up to eight free bridges: at r, counted from 0, those that
// have more than r. The capacity for r is the sum of the first r of these numbers. Plan, search and
// counts have theirs from here.
ghost use Rattle.std.specs.Prelude.{ℕ, ◌+◌, ◌-◌, ◌<◌, ◌≤◌, min, ◌≡◌, length, get_or, replicate, ltb};
ghost use Rattle.std.specs.Int.Count.{ones};
ghost use Rattle.laws.specs.Sums.{bit, only};
ghost use Rattle.laws.specs.Lists.{at};
ghost use Rattle.laws.specs.method.Capacities.{AtLeast};
ghost use Rattle.station.specs.Limits.{most_slots, most_bridges};

use station::limits::{MOST_BRIDGES, MOST_SLOTS};

// Enters a slot with so many free bridges: it has at least one, two, up to as many. By `iter_mut`
// and `u8::from(r < free)` it was slower, here and below.
pub(crate) fn enter_slot(entries: &mut [u8; MOST_BRIDGES], free: usize)
    requires { (length entries.old ≡ most_bridges) × ((r : ℕ) → r < most_bridges → get_or entries.old r 0 < 255) }
    ensures { (length entries.new ≡ most_bridges) × ((r : ℕ) → r < most_bridges → get_or entries.new r 0 ≡ get_or entries.old r 0 + bit (ltb r free)) }
{
    for r in 0..MOST_BRIDGES {
        if r < free {
            entries[r] += 1;
        }
    }
}

// Takes a slot with so many free bridges off again. One function with the step as a closure would
// be no plainer: entering has a clause against too large a number, which this has not.
pub(crate) fn leave_slot(entries: &mut [u8; MOST_BRIDGES], free: usize)
    ensures { (length entries.new ≡ length entries.old) × (length entries.old ≡ most_bridges → (r : ℕ) → r < most_bridges → get_or entries.new r 0 ≡ get_or entries.old r 0 - bit (ltb r free)) }
{
    for r in 0..MOST_BRIDGES {
        if r < free {
            entries[r] = entries[r].saturating_sub(1);
        }
    }
}

// The free numbers of the first slots, and 0 past them: the smaller of the bridges that the slot's
// mask has and of the motors that it has to spare. The slots are entered in `entries`.
pub(crate) fn slot_counts(
    masks: &[u8; MOST_SLOTS],
    spare: &[usize; MOST_SLOTS],
    slots: usize,
    entries: &mut [u8; MOST_BRIDGES],
) -> [usize; MOST_SLOTS]
    requires { (slots ≤ most_slots) × (entries.old ≡ replicate most_bridges 0) }
    ensures { ((s : ℕ) → get_or result s 0 ≡ only (ltb s slots) (min (ones (get_or masks.now s 0)) (get_or spare.now s 0))) × AtLeast entries.new slots (at result) }
{
    let mut out = [0; MOST_SLOTS];
    for s in 0..slots {
        let free = spare[s].min(masks[s].count_ones() as usize);
        out[s] = free;
        enter_slot(entries, free);
    }
    out
}
