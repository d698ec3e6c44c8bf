// The walk over the optional cells in eviction order: a cell that lowers the shortage is evicted.
ghost use Rattle.std.specs.Prelude.{ℕ, ◌*◌, ◌<◌, ◌≤◌, ◌≡◌, true, List, [], ◌∷◌, length};
ghost use Rattle.station.specs.Limits.{most_bridges, most_presets};
ghost use Rattle.station.specs.Types.{station_in};
ghost use Rattle.placing.specs.method.Grid.{GridOf};
ghost use Rattle.placing.specs.Table.{cell};
ghost use Rattle.placing.specs.Call.{CellPlace, downward, eviction_order};
ghost use Rattle.placing.specs.method.Search.{Stands, Walked, Chains, Linked};

use crate::grid::Grid;
use crate::search::links::Links;
use crate::search::ranks::ranks_of;
use crate::search::{Demand, Search};
use station::limits::MOST_BRIDGES;
use station::types::Station;

// Tries a cell: with one more free bridge its slot counts in the next entry too. Where the call
// then lacks as much as before, the entry is taken back; else the cell is evicted, and the shortage
// is one less. (A slot whose bridges are all free has no next entry and no cell to try.)
fn try_cell(search: &mut Search, demand: &Demand, slot: usize, bridge: usize)
    requires { (slot < demand.now.slots) × (bridge < most_bridges) × (0 < search.old.short) × Stands demand.now search.old }
    ensures { Walked demand.now (record { slot = slot; bridge = bridge } ∷ []) search.old search.new }
{
    let x = search.offer.counts[slot];
    if MOST_BRIDGES <= x {
        return;
    }
    search.entries[x] += 1;
    if demand.sums.lacks(&search.entries, search.short) {
        search.entries[x] -= 1;
        return;
    }
    search.offer.free[slot] |= 1 << bridge;
    search.offer.counts[slot] += 1;
    search.short -= 1;
    search.evicted += 1;
}

// The walk over the chain of a rank: each cell is tried. It ends as soon as there is no shortage.
// Down a chain there is no slice to go over.
fn through_chain(links: &Links, rank: usize, demand: &Demand, search: &mut Search)
    requires { (rank < most_presets) × Linked links.now (demand.now.slots * most_bridges) × Stands demand.now search.old }
    ensures { Stands demand.now search.new × ((of : ℕ → List CellPlace) → Chains links.now of → Walked demand.now (of rank) search.old search.new) }
{
    let mut at = links.first[rank];
    while let Some(cell) = at {
        if search.short == 0 {
            return;
        }
        let place = usize::from(cell);
        at = links.next[place];
        try_cell(search, demand, place / MOST_BRIDGES, place % MOST_BRIDGES);
    }
}

// The walk over the chains of the first n ranks, from the worst down. It ends as soon as there is
// no shortage.
fn through_ranks(links: &Links, n: usize, demand: &Demand, search: &mut Search)
    requires { (n ≤ most_presets) × Linked links.now (demand.now.slots * most_bridges) × Stands demand.now search.old }
    ensures { (of : ℕ → List CellPlace) → Chains links.now of → Walked demand.now (downward n of) search.old search.new }
{
    for r in (0..n).rev() {
        if search.short == 0 {
            return;
        }
        through_chain(links, r, demand, search);
    }
}

// The walk over the refinement cells from what the search starts with. Where there is no shortage,
// no cell is chained. (That the presets are few is a clause here and no `Lawful`: a call by counts
// takes any head record.)
pub(crate) fn walk(
    grid: &Grid,
    station: &Station,
    clock: usize,
    demand: &Demand,
    search: &mut Search,
)
    requires { (station.now.head.count ≤ most_presets) × GridOf station.now.head grid.now.cells.now grid.now × (demand.now.slots ≡ station.now.head.slots) × Stands demand.now search.old }
    ensures { Walked demand.now (eviction_order (station_in station.now) clock (cell (station_in station.now) grid.now.cells.now)) search.old search.new }
{
    if search.short == 0 {
        return;
    }
    let head = &station.head;
    let ranks = ranks_of(&station.presets[..head.count]);
    let links = Links::of_slots(grid, clock, &ranks);
    through_ranks(&links, head.count, demand, search);
}
