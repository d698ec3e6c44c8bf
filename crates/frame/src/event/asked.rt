// What an event asks for, where the frame's own causes (8, a head record's 2, 11) are not tried:
// the causes of the event itself, and then it is carried out.
ghost use Rattle.std.specs.Prelude.{◌≡◌, true};
ghost use Rattle.station.specs.Types.{station_in, valid_station};
ghost use Rattle.placing.specs.Table.{cell};
ghost use Rattle.placing.specs.Claims.{Running};
ghost use Rattle.placing.specs.method.Counts.{CountsOf};
ghost use Rattle.placing.specs.State.{state_at};
ghost use Rattle.frame.specs.Types.{outcome};
ghost use Rattle.frame.specs.EventDone.{Yields};
ghost use Rattle.frame.specs.method.EventParts.{ClockDone, line_meant};

use crate::types::Answer;
use placing::call::call_by_counts;
use placing::cells::Cell;
use placing::check::clock_in;
use placing::counts::Counts;
use placing::moment::Moment;
use station::events::{Event, read_event};
use station::types::{Refusal, Station};

// Sets the clock of a frame of so many slots: 2 for a clock outside 0 to S + 1, 6 for one below the
// present clock, which stays.
pub(crate) fn asked_clock(slots: usize, moment: &mut Moment, to: usize) -> Result<Answer, Refusal>
    ensures { ClockDone slots moment.old.clock moment.old.hold to (outcome result moment.new) }
{
    if !clock_in(slots, to) {
        return Err(Refusal::OutOfLimits);
    }
    if to < moment.clock {
        return Err(Refusal::ClockBack);
    }
    moment.clock = to;
    Ok(Answer::Now(to))
}

// An event line on a running frame, by what it asks for alone: its clock or its order of ties is
// set, its call placed by the counts of the table and the clock, or its fault handed back. The
// counts afterwards are those of what it leaves. It is a part of `event_by_value` and of the loop
// over a text's lines: they have tried the frame's own causes, and the loop keeps the counts
// between events.
pub(crate) fn event_by_counts(
    station: &Station,
    table: &mut [Cell],
    moment: &mut Moment,
    counts: &mut Counts,
    line: &[u8],
) -> Result<Answer, Refusal>
    ensures { valid_station station.now ≡ true → Running (station_in station.now) (state_at table.old moment.old)
        → CountsOf (station_in station.now) moment.old.clock (cell (station_in station.now) table.old) counts.old
        → Yields (line_meant station.now.head station.now.presets (state_at table.old moment.old) line.now) table.new (outcome result moment.new)
        × CountsOf (station_in station.now) moment.new.clock (cell (station_in station.now) table.new) counts.new }
{
    match read_event(line)? {
        Event::Clock(t) => {
            // A cast, as std has no `From<u32>` of a `usize`.
            let before = moment.clock;
            let answer = asked_clock(station.head.slots, moment, t as usize);
            counts.pass_slots(station.head, table, before, moment.clock);
            answer
        }
        Event::Call(call) => {
            let evicted = call_by_counts(station, table, *moment, call, counts)?;
            Ok(Answer::Taken(evicted))
        }
        Event::Tie(hold) => {
            moment.hold = hold;
            Ok(Answer::Tie(hold))
        }
    }
}
