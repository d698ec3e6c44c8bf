// The cells of a frame within the limits, which the parts that look at a whole table walk over.
ghost use Rattle.std.specs.Prelude.{◌+◌, ◌*◌, ◌<◌, ◌≤◌, ◌≡◌, length};
ghost use Rattle.station.specs.Limits.{most_slots, most_bridges, least_cells};

use crate::cells::Cell;
use crate::limits::{in_limits, motors};
use station::types::Head;

// A table with the frame that it begins with, slot by slot and in each slot bridge by bridge, and
// the motors that the supply feeds in a slot. (That the table is long enough stays in five other
// contracts: `write_plan` and `carry_out` write it, and beside a `&mut` no grid of it can be kept;
// `Counts::of` takes any table; `well_formed_frame` and `well_formed` come before the grid, which
// is made of their station, so that with one they would have to say that it is the station's.)
#[derive(Clone, Copy, Debug, PartialEq, Eq, Hash)]
pub(crate) struct Grid<'a> {
    pub cells: &'a [Cell],
    pub slots: usize,
    pub bridges: usize,
    pub fed: usize,
    pub ghost few_slots: { slots ≤ most_slots },
    pub ghost few_bridges: { bridges ≤ most_bridges },
    pub ghost enough: { least_cells ≤ length cells.now },
}

impl<'a> Grid<'a> {
    ghost use Rattle.placing.specs.method.Grid.{GridFor};

    // The frame of a head over a table; None where one of them is beyond the limits.
    pub(crate) fn of(head: &Head, cells: &'a [Cell]) -> Option<Grid<'a>>
        ensures { GridFor head.now cells.now result }
    {
        if !in_limits(head.slots, head.bridges, 0, cells.len()) {
            return None;
        }
        Some(Grid {
            cells,
            slots: head.slots,
            bridges: head.bridges,
            fed: motors(*head),
        })
    }

    // Where a slot's cells begin: eight cells from there on are in the table.
    pub(crate) fn start(&self, slot: usize) -> usize
        requires { slot < self.now.slots }
        ensures { (result ≡ slot * self.now.bridges) × (result + most_bridges ≤ length self.now.cells.now) }
    {
        slot * self.bridges
    }
}
