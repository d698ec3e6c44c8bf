// The entries that write the listing of a text, or one line of it, at the start of an output.
// `write_slot` has its presets in a borrowed slice of records.
pub(crate) mod bytes; // bytes.rt: the lines of the listing, as bytes

ghost use Rattle.frame.specs.WroteLine.{answer_written, grant_written, slot_written, WroteLine};
ghost use Rattle.std.specs.Prelude.{◌≤◌, length};
ghost use Rattle.frame.specs.WriteListing.{Listed, ListedWhole};
ghost use Rattle.frame.specs.method.ListingParts.{ListsBeside};

use crate::listing::bytes::{answer_line, granted_line, refused_line, slot_line};
use crate::text::run_text_by_value;
use crate::types::Answer;
use placing::cells::Cell;
use placing::check::{FIRST_CLOCK, frame_cause};
use placing::moment::Moment;
use station::limits::{LEAST_CELLS, LEAST_OUTPUT, MOST_BYTES};
use station::output::Writer;
use station::types::{Head, NO_HEAD, NO_PRESETS, Preset, Refusal, Station};

// Writes the line of an answer to the event of line `line`; the bytes past it stay.
pub fn write_answer(
    out: &mut [u8],
    line: usize,
    answer: Result<Answer, Refusal>,
) -> Result<usize, Refusal>
    ensures { WroteLine (answer_written line answer out.old) result out.new }
{
    if out.len() < LEAST_OUTPUT {
        return Err(Refusal::TooShort);
    }
    let mut writer = Writer::new(out, 0);
    answer_line(&mut writer, line, answer);
    Ok(writer.place())
}

// Writes the granted line of the preset with this number; the bytes past it stay.
pub fn write_grant(number: u8, slots: u8, out: &mut [u8]) -> Result<usize, Refusal>
    ensures { WroteLine (grant_written number slots out.old) result out.new }
{
    if out.len() < LEAST_OUTPUT {
        return Err(Refusal::TooShort);
    }
    let mut writer = Writer::new(out, 0);
    granted_line(&mut writer, usize::from(number), usize::from(slots));
    Ok(writer.place())
}

// Writes the line of a slot, numbered from 1; the bytes past it stay. Refused with 8 for the
// output, for fewer than 32 preset records and for the table, with 2 for the head record, 11 for
// the table, then with 2 for a slot outside 1 to S.
pub fn write_slot(
    head: Head,
    presets: &[Preset],
    table: &[Cell],
    slot: usize,
    out: &mut [u8],
) -> Result<usize, Refusal>
    ensures { WroteLine (slot_written (length presets.now) head presets.now table.now slot out.old) result out.new }
{
    if out.len() < LEAST_OUTPUT {
        return Err(Refusal::TooShort);
    }
    let station = Station::of(head, presets)?;
    frame_cause(&station, table, FIRST_CLOCK)?;
    if slot < 1 || head.slots < slot {
        return Err(Refusal::OutOfLimits);
    }
    let mut writer = Writer::new(out, 0);
    slot_line(&mut writer, head.bridges, table, slot - 1);
    Ok(writer.place())
}

// Runs a text from an empty head, and writes what it comes to: its listing, or the one line of
// whatever refuses it. Answers the next place.
fn list(text: &[u8], table: &mut [Cell], out: &mut [u8]) -> usize
    ensures { ListsBeside text.now table.old out.old table.new out.new result }
{
    let mut head = NO_HEAD;
    let mut presets = NO_PRESETS;
    let mut moment = Moment {
        clock: FIRST_CLOCK,
        hold: false,
    };
    match run_text_by_value(text, &mut head, &mut presets, table, &mut moment, out) {
        Ok(end) => end,
        Err(fault) => {
            let mut writer = Writer::new(out, 0);
            refused_line(&mut writer, fault.line, fault.cause);
            writer.place()
        }
    }
}

// Writes the listing of a whole text at the start of the output, as far as it has room for it, and
// answers how many bytes it is; of a refused head or plan that is its one refused line. 10 for a
// text above 32,768 bytes, then 8 for an output below 8,192 bytes or a table below 512 cells: these
// leave table and output as they were. An output of 655,360 bytes has room for every listing.
pub fn write_listing(text: &[u8], table: &mut [Cell], out: &mut [u8]) -> Result<usize, Refusal>
    ensures done { Listed text.now table.old out.old table.new out.new result }
    ensures whole { 655360 ≤ length out.old → ListedWhole text.now table.old out.old out.new result }
{
    if MOST_BYTES < text.len() {
        return Err(Refusal::TextTooLong);
    }
    if out.len() < LEAST_OUTPUT || table.len() < LEAST_CELLS {
        return Err(Refusal::TooShort);
    }
    Ok(list(text, table, out))
}
