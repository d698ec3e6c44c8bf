// A whole text: head, plan, then every line as an event, and the listing as it comes. The entry
// `run_text` has its presets in a borrowed slice of records, `run_text_by_value` by value: it
// stays, since who has 32 records meets no 8 of the list, and its contract says so.
pub(crate) mod lines; // lines.rt: the lines of a text, or those after its head

ghost use Rattle.frame.specs.Text.{whole_of};
ghost use Rattle.frame.specs.TextDone.{text_run, Leaves, TextDone, TextClaim};
ghost use Rattle.frame.specs.TextEntry.{text_answer, TextEntry};
ghost use Rattle.frame.specs.method.TextParts.{HeadStart};

use crate::listing::bytes::{granted_lines, slot_lines};
use crate::text::lines::run_lines;
use placing::cells::Cell;
use placing::check::FIRST_CLOCK;
use placing::moment::Moment;
use placing::plan::plan_by_value;
use station::heads::read_head_by_value;
use station::limits::{LEAST_CELLS, LEAST_OUTPUT, LEAST_RECORDS, MOST_BYTES, MOST_PRESETS};
use station::output::Writer;
use station::types::{Extent, Fault, Head, Preset, Refusal, Station};

// Runs a whole text, and answers how many bytes its listing is: 10 for more than 32,768 bytes, 8
// for fewer than 32 preset records, an output below 8,192 bytes or a table below 512 cells, then
// the head's causes, then 5; else every line after the head is answered, and the listing stands at
// the start of the output, as far as it has room for it. A refusal leaves table, clock, order of
// ties and output as they were; the head and its records are those handed in, and with 5 those
// read. The records past the last preset stay.
pub fn run_text(
    text: &[u8],
    head: &mut Head,
    presets: &mut [Preset],
    table: &mut [Cell],
    moment: &mut Moment,
    out: &mut [u8],
) -> Result<usize, Fault>
    ensures { TextEntry text.now head.old presets.old table.old moment.old.clock moment.old.hold out.old presets.new table.new out.new (text_answer result head.new moment.new) }
{
    if MOST_BYTES < text.len() {
        return Err(Refusal::TextTooLong.into());
    }
    let records = presets
        .first_chunk_mut::<LEAST_RECORDS>()
        .ok_or(Refusal::TooShort)?;
    run_text_by_value(text, head, records, table, moment, out)
}

// A head that was read, so much of the text: its plan, then the lines after it, and the listing. 5
// leaves all as it was.
fn run_head(
    text: &[u8],
    read: Extent,
    station: &Station,
    table: &mut [Cell],
    moment: &mut Moment,
    out: &mut [u8],
) -> Result<usize, Fault>
    requires { HeadStart station.now.head station.now.presets text.now read.bytes read.lines table.old }
    ensures { Leaves (whole_of text.now table.old) station.now.head station.now.presets table.old moment.old.clock moment.old.hold out.old table.new out.new (text_run result station.now.head station.now.presets moment.new) }
{
    let grants = plan_by_value(station, table).map_err(|cause| cause.at(read.lines))?;
    let mut writer = Writer::new(out, 0);
    granted_lines(&mut writer, station.presets, grants, station.head.count);
    *moment = Moment {
        clock: FIRST_CLOCK,
        hold: station.head.hold,
    };
    run_lines(text, read, station, table, moment, &mut writer);
    slot_lines(&mut writer, station.head.slots, station.head.bridges, table);
    Ok(writer.place())
}

// Runs a whole text, and answers how many bytes its listing is: 10 for more than 32,768 bytes, 8
// for an output below 8,192 bytes or a table below 512 cells, then the head's causes, then 5; else
// every line after the head is answered, and the listing stands at the start of the output, as far
// as it has room for it. A refusal leaves table, clock, order of ties and output as they were; the
// head is the one handed in, and with 5 the one read.
pub fn run_text_by_value(
    text: &[u8],
    head: &mut Head,
    presets: &mut [Preset; MOST_PRESETS],
    table: &mut [Cell],
    moment: &mut Moment,
    out: &mut [u8],
) -> Result<usize, Fault>
    ensures done { TextDone text.now head.old presets.old table.old moment.old.clock moment.old.hold out.old table.new out.new (text_run result head.new presets.new moment.new) }
    ensures claim { TextClaim text.now table.old out.old }
{
    if MOST_BYTES < text.len() {
        return Err(Refusal::TextTooLong.into());
    }
    if out.len() < LEAST_OUTPUT || table.len() < LEAST_CELLS {
        return Err(Refusal::TooShort.into());
    }
    let read = read_head_by_value(text, head, presets)?;
    let station = Station {
        head: *head,
        presets: *presets,
    };
    run_head(text, read, &station, table, moment, out)
}
