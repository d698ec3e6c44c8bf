// The eviction search: which optional cells a call evicts, and over which cells its jobs are then
// placed.
pub(crate) mod empty; // empty.rt: the empty cells that a call may use, and the motors to spare
mod ranks; // ranks.rt: the ranks of the presets
mod links; // links.rt: the optional cells as chains
mod taking; // taking.rt: the walk over them

ghost use Rattle.std.specs.Prelude.{ℕ, ◌*◌, ◌<◌, ◌≤◌, ◌≡◌, length, get_or};
ghost use Rattle.station.specs.Limits.{most_slots, most_bridges, least_cells};
ghost use Rattle.placing.specs.method.Limits.{capacity_count, most_placed, motors_in};
ghost use Rattle.placing.specs.method.Search.{Starts, Searched};

use crate::capacities::slot_counts;
use crate::cells::Cell;
use crate::grid::Grid;
use crate::limits::MOST_PLACED;
use crate::rule::Offer;
use crate::search::empty::slot_masks;
use crate::search::taking::walk;
use crate::sums::Sums;
use station::limits::{MOST_BRIDGES, MOST_PRESETS, MOST_SLOTS};
use station::types::Station;

// What a call evicts: how many cells, and where its jobs may go: over the empty cells above the
// clock and the evicted ones, nowhere up to the clock and past the frame.
#[derive(Clone, Copy, Debug, PartialEq, Eq, Hash)]
pub(crate) struct Evicted {
    pub count: usize,
    pub offer: Offer,
}

// What is evicted where nothing is looked at.
const UNFIT: Evicted = Evicted {
    count: 0,
    offer: Offer {
        free: [0; MOST_SLOTS],
        counts: [0; MOST_SLOTS],
    },
};

// What the jobs demand: the sums of their lengths, and the number of slots in which they are to
// have it.
#[derive(Clone, Copy, Debug, PartialEq, Eq, Hash)]
pub(crate) struct Demand {
    pub slots: usize,
    pub sums: Sums,
}

// What the search keeps: where the jobs may go, each slot's count being its free number, how many
// slots have at least one, two, up to eight free bridges, the shortage, and how many cells are
// evicted so far. That these numbers are right (`Stands`) is no ghost field: it speaks of the
// demand too, and with the demand in here every contract of the walk would have to say that it
// stays.
#[derive(Clone, Copy, Debug, PartialEq, Eq, Hash)]
pub(crate) struct Search {
    pub offer: Offer,
    pub entries: [u8; MOST_BRIDGES],
    pub short: usize,
    pub evicted: usize,
}

// What the search has before its walk: the empty cells above the clock, and the free numbers.
fn starting(grid: &Grid, clock: usize, demand: &Demand) -> Search
    requires { (demand.now.slots ≡ grid.now.slots) × ((r : ℕ) → r < capacity_count → get_or demand.now.sums.largest r 0 ≤ 255 * most_placed) × (demand.now.sums.total ≤ 255 * most_placed) }
    ensures { Starts grid.now.cells.now grid.now.bridges grid.now.fed clock demand.now result }
{
    let mut spare = [0; MOST_SLOTS];
    let free = slot_masks(grid, clock, &mut spare);
    let mut entries = [0; MOST_BRIDGES];
    let counts = slot_counts(&free, &spare, demand.slots, &mut entries);
    let short = demand.sums.excess(&entries);
    Search {
        offer: Offer { free, counts },
        entries,
        short,
        evicted: 0,
    }
}

// The eviction search: for jobs with the first k needs, what the call evicts. Where it does not fit
// that is an error: the evicted cells are those that lower the shortage, which then stays above 0.
// Where the frame, the table or k is beyond the limits, nothing is read and the call does not fit.
pub(crate) fn evict(
    table: &[Cell],
    station: &Station,
    clock: usize,
    needs: &[u8; MOST_PLACED],
    k: usize,
) -> Result<Evicted, Evicted>
    ensures { Searched station.now.head station.now.presets clock needs.now k table.now result }
{
    let head = &station.head;
    if MOST_PLACED < k || MOST_PRESETS < head.count {
        return Err(UNFIT);
    }
    let Some(grid) = Grid::of(head, table) else {
        return Err(UNFIT);
    };
    let demand = Demand {
        slots: head.slots,
        sums: Sums::of(needs, k),
    };
    let mut search = starting(&grid, clock, &demand);
    walk(&grid, station, clock, &demand, &mut search);
    let found = Evicted {
        count: search.evicted,
        offer: search.offer,
    };
    if search.short != 0 {
        return Err(found);
    }
    Ok(found)
}
