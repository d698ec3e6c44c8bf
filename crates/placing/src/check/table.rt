// The check of a table.
ghost use Rattle.std.specs.Prelude.{◌≡◌, true, ◌+◌, ◌*◌, ◌<◌, ◌≤◌, length};
ghost use Rattle.laws.specs.Sums.{every, count};
ghost use Rattle.station.specs.Limits.{least_cells};
ghost use Rattle.station.specs.Types.{preset_in, station_in};
ghost use Rattle.placing.specs.method.Check.{tally, numbered, cell_fits, FirstFault, is_met, preset_met, has_call};
ghost use Rattle.placing.specs.Table.{cell, well_formed};

use crate::cells::{BUSY, CALL, Cell, MANDATORY, OPTIONAL, VALUES, number_in};
use crate::grid::Grid;
use crate::lawful::Lawful;
use crate::limits::motors;
use station::limits::{MOST_BRIDGES, MOST_FRAME_JOBS};
use station::types::Preset;

// The cells that have numbers are counted by value, from the first mandatory cell on: how many
// counts there are, and where those of the optional and of the call cells begin. They are one array
// and not one for each kind, so that a cell is counted where its value says, whatever its kind.
const COUNTS: usize = 768;

const OPTIONALS: usize = 256;

const CALLS: usize = 512;

// Whether a cell may hold v, by the counts of the presets' numbers and of the cells before it: busy
// just where the head says so. By values and not by a match on the kind, which was tried: the check
// of a table then takes a twentieth longer.
fn cell_fits(v: Cell, busy: bool, numbers: &[u8; 256], counts: &[u16; COUNTS]) -> bool
    ensures { result ≡ cell_fits numbers.now counts.now busy v }
{
    if busy {
        return v == BUSY;
    }
    if v < MANDATORY {
        return v == 0;
    }
    let n = number_in(v);
    if CALL <= v {
        return v != CALL && v < VALUES && numbers[n] == 0;
    }
    numbers[n] != 0 && (OPTIONAL <= v || counts[OPTIONALS + n] == 0)
}

// The first cell at fault, slot by slot and in each slot bridge by bridge, as its place in the
// table; the number of the frame's cells where none is. Each cell is judged by the cells before it,
// so those behind the first at fault are not looked at. The cells before it that have numbers are
// counted, and their numbers get the slot's mark in `last`, so that a number which has it already
// stands in the slot twice. `held` counts the cells of the slot that have numbers, those that
// presets and calls hold: where it has reached the motors that the supply feeds, one more is at
// fault. The busy cells are lent: by value, which was tried, a checked call that is refused takes a
// tenth longer.
fn scan(
    grid: &Grid,
    busy: &[u64; MOST_BRIDGES],
    numbers: &[u8; 256],
    counts: &mut [u16; COUNTS],
) -> usize
    requires { counts.old ≡ tally grid.now.cells.now 0 }
    ensures { FirstFault grid.now.slots grid.now.bridges grid.now.fed busy.now numbers.now grid.now.cells.now result × (counts.new ≡ tally grid.now.cells.now result) }
{
    let mut last = [0u8; 256];
    let mut at = 0;
    'frame: for s in 0..grid.slots {
        let mark = s as u8 + 1;
        let mut held = 0;
        for b in 0..grid.bridges {
            let v = grid.cells[at];
            let taken = (busy[b] >> s) % 2 == 1;
            if !cell_fits(v, taken, numbers, counts) {
                break 'frame;
            }
            if MANDATORY <= v {
                if grid.fed <= held {
                    break 'frame;
                }
                held += 1;
                let n = number_in(v);
                if last[n] == mark {
                    break 'frame;
                }
                last[n] = mark;
                let place = usize::from(v - MANDATORY);
                counts[place] += 1;
            }
            at += 1;
        }
    }
    at
}

// How many presets have each number.
fn preset_numbers(lawful: &Lawful) -> [u8; 256]
    ensures { result ≡ numbered (station_in lawful.now.station.now).presets lawful.now.station.now.head.count }
{
    let mut numbers = [0u8; 256];
    for i in 0..lawful.station.head.count {
        numbers[usize::from(lawful.station.presets[i].number)] += 1;
    }
    numbers
}

// Whether the preset has just its mandatory cells and at most its optional ones, by the counts of
// the table.
fn preset_met(preset: Preset, counts: &[u16; COUNTS]) -> bool
    ensures { result ≡ is_met counts.now (preset_in preset) }
{
    let n = usize::from(preset.number);
    counts[n] == u16::from(preset.mandatory) && counts[OPTIONALS + n] <= u16::from(preset.optional)
}

// The same of every preset.
fn presets_met(lawful: &Lawful, counts: &[u16; COUNTS]) -> bool
    ensures { result ≡ every lawful.now.station.now.head.count (preset_met (station_in lawful.now.station.now).presets counts.now) }
{
    lawful.station.presets[..lawful.station.head.count]
        .iter()
        .all(|preset| preset_met(*preset, counts))
}

// How many job numbers the table has. By `filter` and `count`, which was tried, the check of a
// table takes a tenth longer.
fn job_count(counts: &[u16; COUNTS]) -> usize
    ensures { result ≡ count 256 (has_call counts.now) }
{
    let mut jobs = 0;
    for n in 0..256 {
        jobs += usize::from(0 < counts[CALLS + n]);
    }
    jobs
}

// Whether the table is well-formed: no cell at fault, then the presets' counts, then the number of
// jobs.
pub(crate) fn well_formed(lawful: &Lawful, table: &[Cell]) -> bool
    requires { least_cells ≤ length table.now }
    ensures { result ≡ well_formed (station_in lawful.now.station.now) (cell (station_in lawful.now.station.now) table.now) }
{
    let head = &lawful.station.head;
    let grid = Grid {
        cells: table,
        slots: head.slots,
        bridges: head.bridges,
        fed: motors(*head),
    };
    let cells = head.slots * head.bridges;
    let numbers = preset_numbers(lawful);
    let mut counts = [0u16; COUNTS];
    cells <= scan(&grid, &head.busy, &numbers, &mut counts)
        && presets_met(lawful, &counts)
        && job_count(&counts) <= MOST_FRAME_JOBS
}
