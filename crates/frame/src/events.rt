// The events of a text without a head, on a running frame that was kept: what an operator's console
// needs after a restart. The entry `run_events` has its presets in a borrowed slice of records,
// `run_events_by_value` takes a station: it stays, since who has one meets no 8 of the list.
ghost use Rattle.station.specs.Limits.{least_records};
ghost use Rattle.placing.specs.State.{state_at};
ghost use Rattle.frame.specs.EventsDone.{events_meant, events_answer, EventsLeft, EventsClaim, EventsEntry};

use crate::text::lines::run_lines;
use placing::cells::Cell;
use placing::check::frame_cause;
use placing::moment::Moment;
use station::limits::{LEAST_OUTPUT, MOST_BYTES};
use station::output::Writer;
use station::types::{Extent, Fault, Head, Preset, Refusal, Station};

// Runs a text whose every line is an event, the first one being line 1, on the table, the clock and
// the order of ties that are handed in, and answers how many bytes of the output the answers take:
// 10 for more than 32,768 bytes, 8 for fewer than 32 preset records, an output below 8,192 bytes or
// a table below 512 cells, 2 of the head record, 11, each at line 0 and changing nothing; else
// every line is answered, and the answers stand at the start of the output, as far as it has room
// for them. No line of a slot is written. A frame that 11 lets pass is such a frame afterwards, and
// all of demand 3 holds of the list of lines.
pub fn run_events(
    head: Head,
    presets: &[Preset],
    table: &mut [Cell],
    moment: &mut Moment,
    text: &[u8],
    out: &mut [u8],
) -> Result<usize, Fault>
    ensures { EventsEntry head presets.now (state_at table.old moment.old) text.now out.old table.new out.new (events_answer result moment.new) }
{
    if MOST_BYTES < text.len() {
        return Err(Refusal::TextTooLong.into());
    }
    let station = Station::of(head, presets)?;
    run_events_by_value(&station, table, moment, text, out)
}

// Runs a text whose every line is an event, the first one being line 1, on the table, the clock and
// the order of ties that are handed in, and answers how many bytes of the output the answers take:
// 10 for more than 32,768 bytes, 8 for an output below 8,192 bytes or a table below 512 cells, 2 of
// the head record, 11, each at line 0 and changing nothing; else every line is answered, and the
// answers stand at the start of the output, as far as it has room for them.
pub fn run_events_by_value(
    station: &Station,
    table: &mut [Cell],
    moment: &mut Moment,
    text: &[u8],
    out: &mut [u8],
) -> Result<usize, Fault>
    ensures done { EventsLeft (events_meant least_records station.now.head station.now.presets (state_at table.old moment.old) text.now out.old) table.new out.new (events_answer result moment.new) }
    ensures claim { EventsClaim least_records station.now.head station.now.presets (state_at table.old moment.old) text.now out.old table.new (events_answer result moment.new) }
{
    if MOST_BYTES < text.len() {
        return Err(Refusal::TextTooLong.into());
    }
    if out.len() < LEAST_OUTPUT {
        return Err(Refusal::TooShort.into());
    }
    frame_cause(station, table, moment.clock)?;
    let gone = Extent { lines: 0, bytes: 0 };
    let mut writer = Writer::new(out, 0);
    run_lines(text, gone, station, table, moment, &mut writer);
    Ok(writer.place())
}
