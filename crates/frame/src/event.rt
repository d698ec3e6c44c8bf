// One event on the running frame, on the table, the clock and the order of ties that the last one
// left. The entries `set_clock` and `event` have their presets in a borrowed slice of records,
// `set_clock_by_value` and `event_by_value` take a station: these stay beside them, since who has
// one meets no 8 of the list, and their contracts say so.
pub(crate) mod asked; // asked.rt: what an event asks for, where the frame's own causes are not tried

ghost use Rattle.std.specs.Prelude.{[], ◌∷◌};
ghost use Rattle.station.specs.Types.{station_in};
ghost use Rattle.placing.specs.Claims.{Running};
ghost use Rattle.placing.specs.State.{state_at};
ghost use Rattle.frame.specs.Types.{outcome};
ghost use Rattle.frame.specs.Event.{Event};
ghost use Rattle.frame.specs.EventEntry.{EventEntry};
ghost use Rattle.frame.specs.EventDone.{EventDone};
ghost use Rattle.frame.specs.Demands.{Demand3};

use crate::event::asked::{asked_clock, event_by_counts};
use crate::types::Answer;
use placing::cells::Cell;
use placing::check::frame_cause;
use placing::counts::Counts;
use placing::moment::Moment;
use station::types::{Head, Preset, Refusal, Station};

// Sets the clock: "slot t is about to begin". The causes 8 of the list and of the table, 2 of the
// head record, 11, then 2 where t is outside 0 to S + 1, and 6 where it is below the present clock.
// The list and the table are only looked at, and the order of ties stays. A frame that 11 lets pass
// is such a frame afterwards.
pub fn set_clock(
    head: Head,
    presets: &[Preset],
    table: &[Cell],
    moment: &mut Moment,
    t: usize,
) -> Result<Answer, Refusal>
    ensures { EventEntry head presets.now (state_at table.now moment.old) (Event.clock t) table.now (outcome result moment.new) }
{
    let station = Station::of(head, presets)?;
    set_clock_by_value(&station, table, moment, t)
}

// One event line, its byte 10 included, on the table, the clock and the order of ties that the last
// event left: the causes 8 of the list and of the table, 2 of the head record, 11, then those of
// the line, of its clock or of its call. A refusal changes nothing. A frame that 11 lets pass is
// such a frame afterwards, so that all of demand 3 holds of a list of events handed over one by
// one.
pub fn event(
    head: Head,
    presets: &[Preset],
    table: &mut [Cell],
    moment: &mut Moment,
    line: &[u8],
) -> Result<Answer, Refusal>
    ensures { EventEntry head presets.now (state_at table.old moment.old) (Event.line line.now) table.new (outcome result moment.new) }
{
    let station = Station::of(head, presets)?;
    event_by_value(&station, table, moment, line)
}

// Sets the clock: "slot t is about to begin". The causes 8, 2 of the head record, 11, then 2 where
// t is outside 0 to S + 1, and 6 where it is below the present clock. The table is only looked at,
// and the order of ties stays. A frame that 11 lets pass is such a frame afterwards.
pub fn set_clock_by_value(
    station: &Station,
    table: &[Cell],
    moment: &mut Moment,
    t: usize,
) -> Result<Answer, Refusal>
    ensures done { EventDone station.now.head station.now.presets (state_at table.now moment.old) (Event.clock t) table.now (outcome result moment.new) }
    ensures kept { Running (station_in station.now) (state_at table.now moment.old) → Running (station_in station.now) (state_at table.now moment.new) }
    ensures claim { Running (station_in station.now) (state_at table.now moment.old) → Demand3 (station_in station.now) (state_at table.now moment.old) (Event.clock t ∷ []) }
{
    frame_cause(station, table, moment.clock)?;
    asked_clock(station.head.slots, moment, t)
}

// One event line, its byte 10 included, on the table, the clock and the order of ties that the last
// event left: the causes 8, 2 of the head record, 11, then those of the line, of its clock or of
// its call. A refusal changes nothing. A frame that 11 lets pass is such a frame afterwards, so
// that all of demand 3 holds of a list of events handed over one by one.
pub fn event_by_value(
    station: &Station,
    table: &mut [Cell],
    moment: &mut Moment,
    line: &[u8],
) -> Result<Answer, Refusal>
    ensures done { EventDone station.now.head station.now.presets (state_at table.old moment.old) (Event.line line.now) table.new (outcome result moment.new) }
    ensures kept { Running (station_in station.now) (state_at table.old moment.old) → Running (station_in station.now) (state_at table.new moment.new) }
    ensures claim { Running (station_in station.now) (state_at table.old moment.old) → Demand3 (station_in station.now) (state_at table.old moment.old) (Event.line line.now ∷ []) }
{
    frame_cause(station, table, moment.clock)?;
    let mut counts = Counts::of(station, table, moment.clock);
    event_by_counts(station, table, moment, &mut counts, line)
}
