// Rows of comma-separated text in place of a head's busy slots: the loop over the rows, and what it
// answers.
mod fields; // fields.rt: one row
pub mod text; // text.rt: the rows of a head

ghost use Rattle.std.specs.Prelude.{◌≡◌, List, ◌≤◌, length};
ghost use Rattle.station.specs.Limits.{most_slots, most_bridges, most_presets, most_bytes};
ghost use Rattle.station.specs.declared.types.Preset as record_of;
ghost use Rattle.station.specs.Types.{head_in};
ghost use Rattle.station.specs.Row.{row_in};
ghost use Rattle.station.specs.ReadRows.{read_rows};
ghost use Rattle.station.specs.RowEntries.{rows_left, rows_reading, rows_read};
ghost use Rattle.station.specs.method.RowFields.{row_is};

use crate::brackets::stretch_mask;
use crate::check::valid_record;
use crate::limits::{MOST_BRIDGES, MOST_BYTES, MOST_PRESETS};
use crate::rows::fields::{Fields, row_at};
use crate::types::{Fault, Head, Preset, Refusal, Station};

// Whether a row lies in a frame of so many slots and bridges.
fn row_in(slots: usize, bridges: usize, fields: Fields) -> bool
    ensures { result ≡ row_in slots bridges (row_is fields) }
{
    (1..=bridges).contains(&(fields.bridge as usize))
        && (1..=fields.last).contains(&fields.first)
        && fields.last as usize <= slots
}

// The rows of a text that is not too long, row by row, from no busy slot on; a slot that a row made
// busy stays so.
fn read_row_lines(text: &[u8], head: &mut Head) -> Result<usize, Fault>
    requires { (length text.now ≤ most_bytes) × (head.old.slots ≤ most_slots)
        × (head.old.bridges ≤ most_bridges) }
    ensures { (ps : List record_of.Preset)
        → rows_left result head.new ≡ rows_read (read_rows (head_in head.old ps) text.now) head.old }
{
    let mut busy = [0; MOST_BRIDGES];
    // A row says where the next begins: a `for` over the lines reads the text twice, and takes a
    // fifth longer.
    let mut at = 0;
    let mut rows = 0;
    while at < text.len() {
        let Some(fields) = row_at(text, at) else {
            return Err(Refusal::NoRow.at(rows + 1));
        };
        if !row_in(head.slots, head.bridges, fields) {
            return Err(Refusal::OutOfLimits.at(rows + 1));
        }
        let bridge = fields.bridge as usize - 1;
        busy[bridge] |= stretch_mask(fields.first, fields.last);
        at = fields.next;
        rows += 1;
    }
    head.busy = busy;
    Ok(rows)
}

// Puts the rows of a text in place of a head's busy slots and answers how many rows there are. Or
// answers the row at fault and the cause: at row 0 with 10 for more than 32,768 bytes, and with 2
// for a head record that no text yields; the head then stays as it was. The head is lent apart from
// the records, and not with them as a station: it is written in place.
pub fn read_rows_by_value(
    text: &[u8],
    head: &mut Head,
    presets: &[Preset; MOST_PRESETS],
) -> Result<usize, Fault>
    ensures { rows_left result head.new
        ≡ rows_read (rows_reading most_presets head.old presets.now text.now) head.old }
{
    if MOST_BYTES < text.len() {
        return Err(Refusal::TextTooLong.into());
    }
    let station = Station {
        head: *head,
        presets: *presets,
    };
    if !valid_record(&station) {
        return Err(Refusal::OutOfLimits.into());
    }
    read_row_lines(text, head)
}
