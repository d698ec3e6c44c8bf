// The slots by what a call may fill in them: those of a table and a clock, and what is left of them
// where the clock moves.
ghost use Rattle.std.specs.Prelude.{◌*◌, ◌<◌, ◌≤◌, ◌≡◌, true, length};
ghost use Rattle.laws.specs.method.Capacities.{AtLeast};
ghost use Rattle.station.specs.Limits.{most_bridges};
ghost use Rattle.placing.specs.method.Limits.{sizes_in_limits, motors_in};
ghost use Rattle.placing.specs.method.Counts.{free_cell, staying_cell, usable_in, slot_free};

use crate::capacities::{enter_slot, leave_slot};
use crate::cells::{Cell, is_evictable, is_held};
use crate::counts::Counts;
use crate::grid::Grid;
use crate::search::empty::first_slot;
use station::limits::MOST_BRIDGES;
use station::types::Head;

// Whether a cell stays whatever the call evicts: one that is held and that it may not evict.
fn is_staying(v: Cell) -> bool
    ensures { result ≡ staying_cell v }
{
    is_held(v) && !is_evictable(v)
}

// Whether a call may use a cell: an empty one or one that it may evict.
fn is_free(v: Cell) -> bool
    ensures { result ≡ free_cell v }
{
    v == 0 || is_evictable(v)
}

// How many cells of a slot a call may fill: the smaller of those that it may use and of the motors
// without the cells that stay. Always eight cells are looked at, so that one vector instruction
// looks at all; those past the slot count for nothing.
fn usable_in(grid: &Grid, slot: usize) -> usize
    requires { slot < grid.now.slots }
    ensures { (result ≡ usable_in grid.now.cells.now (slot * grid.now.bridges) grid.now.bridges grid.now.fed) × (result ≤ most_bridges) }
{
    let from = grid.start(slot);
    let mut free: u16 = 0;
    let mut staying: u16 = 0;
    for b in 0..MOST_BRIDGES {
        let v = grid.cells[from + b];
        let one = u16::from(is_free(v));
        let other = u16::from(is_staying(v));
        if b < grid.bridges {
            free += one;
            staying += other;
        }
    }
    usize::from(free).min(grid.fed.saturating_sub(usize::from(staying)))
}

// How many slots above the clock have at least one, two, up to eight cells that a call may fill, of
// a table within the limits. The other slots are not entered.
pub(crate) fn count_slots(head: Head, table: &[Cell], clock: usize) -> [u8; MOST_BRIDGES]
    ensures { sizes_in_limits head.slots head.bridges 0 (length table.now) ≡ true → AtLeast result head.slots (slot_free table.now head.bridges (motors_in head) clock) }
{
    let mut entries = [0u8; MOST_BRIDGES];
    if let Some(grid) = Grid::of(&head, table) {
        for s in first_slot(clock, grid.slots)..grid.slots {
            enter_slot(&mut entries, usable_in(&grid, s));
        }
    }
    entries
}

impl Counts {
    // Takes the slots above one clock and up to another off: a call cannot use them any more. It
    // promises something within the limits, where the second clock is not below the first, and is
    // safe for every other input.
    pub fn pass_slots(&mut self, head: Head, table: &[Cell], from: usize, to: usize)
        ensures kept { (self.new.used ≡ self.old.used) × (self.new.admitted ≡ self.old.admitted) }
        ensures passed { sizes_in_limits head.slots head.bridges 0 (length table.now) ≡ true → from ≤ to
            → AtLeast self.old.at_least head.slots (slot_free table.now head.bridges (motors_in head) from) → AtLeast self.new.at_least head.slots (slot_free table.now head.bridges (motors_in head) to) }
    {
        let Some(grid) = Grid::of(&head, table) else {
            return;
        };
        for s in first_slot(from, grid.slots)..first_slot(to, grid.slots) {
            leave_slot(&mut self.at_least, usable_in(&grid, s));
        }
    }
}
