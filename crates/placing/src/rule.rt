// The placing rule over the whole frame, for plans and calls alike.
mod levels; // levels.rt: which jobs a slot serves
mod row; // row.rt: one slot's row of the table

ghost use Rattle.std.specs.Prelude.{◌≡◌, ◌≤◌, leb};
ghost use Rattle.laws.specs.Sums.{every};
ghost use Rattle.laws.specs.Lists.{at};
ghost use Rattle.station.specs.Limits.{most_length};
ghost use Rattle.placing.specs.method.Limits.{most_placed};
ghost use Rattle.placing.specs.Plan.{tie_of};
ghost use Rattle.placing.specs.method.Rule.{CleanFrom, Fillable, placeable, placed_by};

use crate::cells::Cell;
use crate::limits::{MOST_PLACED, in_limits};
use crate::rule::levels::{LEVELS, choose, enter, highest};
use crate::rule::row::write_row;
use station::limits::{MOST_LENGTH, MOST_SLOTS};
use station::types::Head;

// Where jobs may go: for each slot the mask of its free bridges, and how many of them are filled at
// the most, which are to be no more than are free there. Of a mask the frame's bridges count.
#[derive(Clone, Copy, Debug, PartialEq, Eq, Hash)]
pub(crate) struct Offer {
    pub free: [u8; MOST_SLOTS],
    pub counts: [usize; MOST_SLOTS],
}

// What is placed: jobs 0 to `count` - 1 with their needs. Job i writes `early[i]` in its first
// `first[i]` slots and `late[i]` in the others.
#[derive(Clone, Copy, Debug, PartialEq, Eq, Hash)]
pub(crate) struct Work {
    pub needs: [u8; MOST_PLACED],
    pub count: usize,
    pub first: [u8; MOST_PLACED],
    pub early: [Cell; MOST_PLACED],
    pub late: [Cell; MOST_PLACED],
}

// Whether none of the first k needs is above the longest job.
fn needs_in(needs: &[u8; MOST_PLACED], k: usize) -> bool
    requires { k ≤ most_placed }
    ensures { result ≡ every k (λ i. leb (at needs.now i) most_length) }
{
    for i in 0..k {
        if MOST_LENGTH < u16::from(needs[i]) {
            return false;
        }
    }
    true
}

// Whether a frame, a table of so many cells and the jobs' needs are what `place` can look at.
fn placeable(head: &Head, work: &Work, cells: usize) -> bool
    ensures { result ≡ placeable head.now.slots head.now.bridges work.now.needs work.now.count cells }
{
    work.count <= MOST_PLACED
        && needs_in(&work.needs, work.count)
        && in_limits(head.slots, head.bridges, 0, cells)
}

// Places the jobs into the free bridges of the frame, largest remaining time first, slot by slot
// from the first. A free bridge that nobody takes becomes 0; one that is not free keeps its cell,
// and so does all past the frame. Of jobs that need the same the earlier one goes first; by `hold`
// those go before it that have a cell in the slot just before. From slot `clean` on the free
// bridges are to be empty already: none is emptied there, and once every job has its cells, nothing
// is looked at there. Where the frame, the number of jobs, one of the needs or the table is beyond
// the limits, nothing is written.
pub(crate) fn place(
    table: &mut [Cell],
    head: &Head,
    offer: &Offer,
    work: &Work,
    clean: usize,
    hold: bool,
)
    ensures { CleanFrom clean head.now.slots head.now.bridges offer.now.free table.old → Fillable head.now.slots head.now.bridges offer.now.free offer.now.counts
        → table.new ≡ placed_by (tie_of hold) head.now offer.now work.now table.old }
{
    if !placeable(head, work, table.len()) {
        return;
    }
    let mut due = work.first;
    let mut levels = [0; LEVELS];
    // Nobody stands above it: it only goes down.
    let mut top = enter(&mut levels, &work.needs, work.count);
    let mut held = 0;
    for s in 0..head.slots {
        top = highest(&levels, top, 0);
        if top == 0 && clean <= s {
            return;
        }
        let mask = offer.free[s];
        let mut chosen = 0;
        if mask != 0 {
            chosen = choose(&mut levels, top, offer.counts[s], held);
            let start = s * head.bridges;
            let row = &mut table[start..start + head.bridges];
            write_row(row, mask, chosen, &mut due, work, s < clean);
        }
        // Who goes first among equal ones in the next slot: by `hold` the jobs that were chosen,
        // and nobody else.
        held = if hold { chosen } else { 0 };
    }
}
