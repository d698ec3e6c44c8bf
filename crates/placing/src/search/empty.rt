// The empty cells that a call may use: a mask for each slot, and how many motors it has to spare.
ghost use Rattle.std.specs.Prelude.{ℕ, ◌+◌, ◌*◌, ◌-◌, ◌<◌, ◌≤◌, min, ◌≡◌, length, get_or, ltb};
ghost use Rattle.laws.specs.Sums.{only};
ghost use Rattle.placing.specs.method.Search.{first_slot, empty_mask, held_from, slot_mask};

use crate::cells::is_held;
use crate::grid::Grid;
use station::limits::{MOST_BRIDGES, MOST_SLOTS};

// A slot's cells as a call finds them: the mask of the empty ones, and how many presets and calls
// hold.
#[derive(Clone, Copy, Debug, PartialEq, Eq, Hash)]
pub(crate) struct Found {
    pub empty: u8,
    pub held: usize,
}

// What stands in the bridges of a slot. Eight cells are looked at whatever the number of bridges,
// since a loop of a fixed length takes half the time; of those past the slot nothing is kept.
// (Tried, and slower: with the tests as numbers that are added, a call that evicts 448 cells takes
// a seventh longer.)
fn found_in(grid: &Grid, slot: usize) -> Found
    requires { slot < grid.now.slots }
    ensures { (result.empty ≡ empty_mask grid.now.cells.now (slot * grid.now.bridges) grid.now.bridges) × (result.held ≡ held_from grid.now.cells.now (slot * grid.now.bridges) grid.now.bridges) }
{
    let from = grid.start(slot);
    let mut mask = 0u8;
    let mut held = 0;
    for b in 0..MOST_BRIDGES {
        let v = grid.cells[from + b];
        if v == 0 {
            mask += 1 << b;
        }
        if b < grid.bridges {
            held += usize::from(is_held(v));
        }
    }
    Found {
        empty: (u16::from(mask) % (1 << grid.bridges)) as u8,
        held,
    }
}

// The first slot above the clock, counted from 0, and `slots` where there is none. What goes over
// the slots that a call may use has it from here.
pub(crate) fn first_slot(clock: usize, slots: usize) -> usize
    ensures { result ≡ min (first_slot clock) slots }
{
    clock.min(slots)
}

// The masks of the empty cells of the frame's slots above the clock, and 0 elsewhere; `spare` gets
// for each of these slots how many motors it has to spare.
pub(crate) fn slot_masks(
    grid: &Grid,
    clock: usize,
    spare: &mut [usize; MOST_SLOTS],
) -> [u8; MOST_SLOTS]
    ensures { ((s : ℕ) → get_or result s 0 ≡ only (ltb s grid.now.slots) (slot_mask grid.now.cells.now grid.now.bridges clock s))
        × ((s : ℕ) → first_slot clock ≤ s → s < grid.now.slots → get_or spare.new s 0 ≡ grid.now.fed - held_from grid.now.cells.now (s * grid.now.bridges) grid.now.bridges) }
{
    let mut out = [0; MOST_SLOTS];
    for s in first_slot(clock, grid.slots)..grid.slots {
        let found = found_in(grid, s);
        out[s] = found.empty;
        spare[s] = grid.fed.saturating_sub(found.held);
    }
    out
}
