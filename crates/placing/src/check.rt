// The causes of a running frame, as they are tried one after the other.
mod table; // table.rt: whether the table is well-formed

ghost use Rattle.std.specs.Prelude.{◌≤◌, ◌≡◌, Bool, true, length};
ghost use Rattle.station.specs.Limits.{least_cells};
ghost use Rattle.station.specs.Refusal.{first_of};
ghost use Rattle.station.specs.Types.{station_in, valid_station};
ghost use Rattle.placing.specs.Valid.{clock_in};
ghost use Rattle.placing.specs.State.{state_of, well_formed_frame};
ghost use Rattle.placing.specs.Causes.{cause_in, frame_causes_of};

use crate::cells::Cell;
use crate::check::table::well_formed;
use crate::lawful::Lawful;
use station::check::valid_record;
use station::limits::LEAST_CELLS;
use station::types::{Refusal, Station};

// The first clock: no slot is about to begin yet.
pub const FIRST_CLOCK: usize = 0;

// Whether a frame of so many slots has the clock: 0 to S + 1, whatever S is.
pub fn clock_in(slots: usize, clock: usize) -> bool
    ensures { result ≡ clock_in slots clock }
{
    if clock <= slots {
        return true;
    }
    clock - slots == 1
}

// Whether the frame is one that 11 lets pass: a well-formed table, and a clock of the frame.
fn well_formed_frame(lawful: &Lawful, table: &[Cell], clock: usize) -> bool
    requires { least_cells ≤ length table.now }
    ensures { (hold : Bool) → result ≡ well_formed_frame (station_in lawful.now.station.now) (state_of table.now clock hold) }
{
    well_formed(lawful, table) && clock_in(lawful.station.head.slots, clock)
}

// The causes of a running frame: 8 for a table below 512 cells, 2 for a head record that no text
// yields, 11 for a table that is not well-formed or a clock outside 0 to S + 1, whatever the order
// of ties is.
pub fn frame_cause(station: &Station, table: &[Cell], clock: usize) -> Result<(), Refusal>
    ensures { (hold : Bool) → cause_in result ≡ first_of (frame_causes_of station.now.head station.now.presets (state_of table.now clock hold)) }
{
    if table.len() < LEAST_CELLS {
        return Err(Refusal::TooShort);
    }
    if !valid_record(station) {
        return Err(Refusal::OutOfLimits);
    }
    let lawful = Lawful { station };
    if !well_formed_frame(&lawful, table, clock) {
        return Err(Refusal::NotWellFormed);
    }
    Ok(())
}
