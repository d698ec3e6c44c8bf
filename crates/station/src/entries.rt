// The entries of layer 1 over a borrowed slice of preset records: each works on the first 32 of
// them, and is refused where there are fewer. Head and slice are lent apart. Where both are only
// looked at, the head becomes a station with those 32 (`Station::of`); where one is read, it is
// written in place.
ghost use Rattle.std.specs.Prelude.{◌≡◌, length};
ghost use Rattle.station.specs.ReadHead.{left_by};
ghost use Rattle.station.specs.Entries.{WroteEntry, entry_read};
ghost use Rattle.station.specs.RowEntries.{rows_left, rows_reading, rows_read, WroteRows};

use crate::heads::read_head_by_value;
use crate::limits::{LEAST_RECORDS, MOST_BYTES};
use crate::rows::read_rows_by_value;
use crate::rows::text::write_rows_by_value;
use crate::types::{Extent, Fault, Head, Preset, Refusal, Station};
use crate::write::write_head_by_value;

// Writes the one text of a head at the start of the output and answers its length; the bytes past
// it stay. Refused with 8 for fewer than 32 preset records and for an output below 8,192 bytes,
// whatever the frame, and with 2 for a head record that no text yields; the output then stays as it
// was.
pub fn write_head(head: Head, presets: &[Preset], out: &mut [u8]) -> Result<usize, Refusal>
    ensures { WroteEntry (length presets.now) head presets.now
        out.old result out.new }
{
    let station = Station::of(head, presets)?;
    write_head_by_value(&station, out)
}

// Reads the head of a text into the list of preset records. Answers the number of its lines and
// bytes; the head is then the one read, and the records past the last preset stay. Or answers the
// line at fault and the cause, 0 with 10 and 8; head and list then stay as they were.
pub fn read_head(text: &[u8], head: &mut Head, presets: &mut [Preset]) -> Result<Extent, Fault>
    ensures { left_by result head.new presets.new
        ≡ entry_read (length presets.old) text.now head.old presets.old }
{
    if MOST_BYTES < text.len() {
        return Err(Refusal::TextTooLong.into());
    }
    let records = presets
        .first_chunk_mut::<LEAST_RECORDS>()
        .ok_or(Refusal::TooShort)?;
    read_head_by_value(text, head, records)
}

// Puts the rows of a text in place of a head's busy slots and answers how many rows there are. Or
// answers the row at fault and the cause: at 0 the causes 10, 8 of the list and 2 of the head
// record, then 12 or 2 of the first row at fault; the head then stays as it was.
pub fn read_rows(text: &[u8], head: &mut Head, presets: &[Preset]) -> Result<usize, Fault>
    ensures { rows_left result head.new
        ≡ rows_read (rows_reading (length presets.now) head.old presets.now text.now) head.old }
{
    if MOST_BYTES < text.len() {
        return Err(Refusal::TextTooLong.into());
    }
    let records = presets
        .first_chunk::<LEAST_RECORDS>()
        .ok_or(Refusal::TooShort)?;
    read_rows_by_value(text, head, records)
}

// Writes the rows of a head at the start of the output and answers their length; the bytes past
// them stay. Refused with 8 for fewer than 32 preset records and for an output below 8,192 bytes,
// whatever the frame, and with 2 for a head record that no text yields; the output then stays as it
// was.
pub fn write_rows(head: Head, presets: &[Preset], out: &mut [u8]) -> Result<usize, Refusal>
    ensures { WroteRows (length presets.now) head presets.now
        out.old result out.new }
{
    let station = Station::of(head, presets)?;
    write_rows_by_value(&station, out)
}
