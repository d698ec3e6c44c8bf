// What a call's own causes are decided by, counted over the cells of the frame; and the numbers
// that a call adds.
pub(crate) mod needs; // needs.rt: the lengths of a call's jobs
pub(crate) mod usable; // usable.rt: the slots by what a call may fill in them
pub(crate) mod causes; // causes.rt: the first cause that a call meets, by the counts

ghost use Rattle.std.specs.Prelude.{ℕ, ◌+◌, ◌*◌, ◌%◌, ◌<◌, ◌≤◌, ◌≡◌, true, false, length, get_or, replicate, ltb};
ghost use Rattle.laws.specs.Sums.{bit, count};
ghost use Rattle.station.specs.Limits.{most_bridges, most_jobs, least_cells};
ghost use Rattle.station.specs.Types.{station_in, valid_station};
ghost use Rattle.placing.specs.Table.{cell, is_call};
ghost use Rattle.placing.specs.method.Jobs.{marked, job_number};
ghost use Rattle.placing.specs.method.Records.{record_at};
ghost use Rattle.placing.specs.method.Counts.{Marks, Marked, MarkedBeside, CountsOf};

use crate::cells::{Cell, is_call, number_in};
use crate::counts::usable::count_slots;
use crate::grid::Grid;
use station::limits::{MOST_BRIDGES, MOST_JOBS, MOST_PRESETS};
use station::types::{Call, Preset, Station};

// What a call's own causes are decided by: whether a preset or a call cell has each number, how
// many numbers the call cells have, and how many slots above the clock have at least one, two, up
// to eight cells that a call may fill: the empty and the optional ones, but no more than the motors
// beside the cells that stay.
#[derive(Clone, Copy, Debug, PartialEq, Eq, Hash)]
pub struct Counts {
    pub used: [bool; 256],
    pub admitted: usize,
    pub at_least: [u8; MOST_BRIDGES],
}

impl Counts {
    // Counts a table and a clock. It promises something of a head record that some text yields and
    // a table that is not too short, and is safe for every other.
    pub fn of(station: &Station, table: &[Cell], clock: usize) -> Counts
        ensures { valid_station station.now ≡ true → least_cells ≤ length table.now → CountsOf (station_in station.now) clock (cell (station_in station.now) table.now) result }
    {
        let head = &station.head;
        let mut counts = Counts {
            used: [false; 256],
            admitted: 0,
            at_least: count_slots(*head, table, clock),
        };
        let Some(grid) = Grid::of(head, table) else {
            return counts;
        };
        if head.count <= MOST_PRESETS {
            counts.admitted = mark_calls(&grid, &mut counts.used);
            mark_presets(&station.presets[..head.count], &mut counts.used);
        }
        counts
    }
}

// Marks the number of a call cell, and answers whether it was not marked before.
fn mark(used: &mut [bool; 256], v: Cell) -> bool
    requires { length used.old ≡ 256 }
    ensures { Marks v used.old used.new (bit result) }
{
    let n = number_in(v);
    if !is_call(v) || used[n] {
        return false;
    }
    used[n] = true;
    true
}

// Whether one of the eight cells from the first of a slot on is a call cell. They are counted, and
// not looked for up to the first: one vector instruction looks at all.
fn has_calls(grid: &Grid, slot: usize) -> bool
    requires { slot < grid.now.slots }
    ensures { result ≡ ltb 0 (count most_bridges (λ b. is_call (get_or grid.now.cells.now (slot * grid.now.bridges + b) 0))) }
{
    let from = grid.start(slot);
    let mut calls: u16 = 0;
    for b in 0..MOST_BRIDGES {
        calls += u16::from(is_call(grid.cells[from + b]));
    }
    0 < calls
}

// Marks the numbers of the call cells of a slot, and answers how many were not marked before.
fn mark_slot(grid: &Grid, slot: usize, used: &mut [bool; 256]) -> usize
    requires { (slot < grid.now.slots) × Marked grid.now.cells.now (slot * grid.now.bridges) used.old }
    ensures { Marked grid.now.cells.now (slot * grid.now.bridges + grid.now.bridges) used.new × (count 256 (marked used.new) ≡ count 256 (marked used.old) + result) × (result ≤ grid.now.bridges) }
{
    let from = grid.start(slot);
    let mut jobs = 0;
    for b in 0..grid.bridges {
        jobs += usize::from(mark(used, grid.cells[from + b]));
    }
    jobs
}

// Marks the numbers of the call cells of a frame, and answers how many numbers they are. Slots
// without one, the most, are passed over.
fn mark_calls(grid: &Grid, used: &mut [bool; 256]) -> usize
    requires { used.old ≡ replicate 256 false }
    ensures { Marked grid.now.cells.now (grid.now.slots * grid.now.bridges) used.new × (result ≡ count 256 (marked used.new)) }
{
    let mut jobs = 0;
    for s in 0..grid.slots {
        if has_calls(grid, s) {
            jobs += mark_slot(grid, s, used);
        }
    }
    jobs
}

// Marks the numbers of the presets.
fn mark_presets(presets: &[Preset], used: &mut [bool; 256])
    requires { length used.old ≡ 256 }
    ensures { MarkedBeside (λ i. (record_at presets.now i).number) used.old (length presets.now) used.new }
{
    for preset in presets {
        used[usize::from(preset.number)] = true;
    }
}

// Marks the numbers of the jobs, eight at the most.
pub(crate) fn mark_jobs(used: &mut [bool; 256], call: Call)
    ensures { length used.old ≡ 256 → call.count ≤ most_jobs → MarkedBeside (λ i. job_number call.jobs i % 256) used.old call.count used.new }
{
    for i in 0..call.count.min(MOST_JOBS) {
        used[usize::from(call.jobs[i].number % 256)] = true;
    }
}
