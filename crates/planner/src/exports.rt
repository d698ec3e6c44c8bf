// The functions that firmware in C or Rust calls, over numbers and slices alone. Each answers 0, or
// the number 1 to 12 of the refusal, and takes every input: short slices and bad records have their
// numbers. The causes are tried in the order in which a function's comment names them.
ghost use Rattle.std.specs.Prelude.{◌≤◌, length};
ghost use Rattle.planner.specs.Exports.{text_on, TextLeaves, TextPromise, event_on, EventLeaves, EventPromise, plan_on, PlanLeaves, PlanPromise, ListingLeaves, ListingWhole, rows_on, RowsLeaves, RowsPromise, RowsWrittenLeaves, RowsWrittenPromise};

use crate::answers::{counted, refusal_number, returned, written};
use crate::grants::save_grants;
use crate::lent::lent_station;
use crate::numbers::{moment_of, save_clock, save_masks, save_run, save_tie};
use crate::presets::save_presets;
use frame::event::event_by_value;
use frame::listing::write_listing;
use frame::text::run_text_by_value;
use placing::cells::Cell;
use placing::plan::plan_by_value;
use station::limits::{MOST_BYTES, MOST_PRESETS};
use station::rows::read_rows_by_value;
use station::rows::text::write_rows_by_value;
use station::types::Refusal;

// Runs a whole text: 10 for more than 32,768 bytes, 8 for a frame below 16 numbers, presets below
// 128 bytes, an output below 8,192 bytes or a table below 512 cells, then the head's causes, then
// 5. Where it ran, `end` is the number of bytes of the listing in the output, and frame, presets
// and table are those of the running frame, with 0 for its reserved number. Where it is refused,
// `end` is the line at fault, and nothing changes, but for 5, which leaves the head and the presets
// that were read.
#[unsafe(no_mangle)]
pub extern "C" fn planner_run_text(
    text: &[u8],
    frame: &mut [u64],
    presets: &mut [u8],
    table: &mut [Cell],
    out: &mut [u8],
    end: &mut u64,
) -> u32
    ensures done { TextLeaves (text_on text.now frame.old presets.old table.old out.old) frame.old presets.old table.old out.old frame.new presets.new table.new out.new end.new result }
    ensures claim { TextPromise text.now frame.old presets.old table.old out.old frame.new presets.new table.new result }
{
    *end = 0;
    if MOST_BYTES < text.len() {
        return refusal_number(Refusal::TextTooLong);
    }
    let Some(station) = lent_station(frame, presets) else {
        return refusal_number(Refusal::TooShort);
    };
    let mut head = station.head;
    let mut records = station.presets;
    let mut moment = moment_of(frame);
    let ended = run_text_by_value(text, &mut head, &mut records, table, &mut moment, out);
    save_run(frame, ended, head, moment);
    save_presets(presets, records);
    returned(ended, end)
}

// One event line, its byte 10 included, on the running frame: 8 for a frame below 16 numbers,
// presets below 128 bytes or a table below 512 cells, 2 for a head that no text yields, 11, then
// the causes of the line, of its clock or of its call. `number` is the new clock, how many cells
// were evicted, or of a tie 1 for hold and 0 for place; 0 with a refusal, which changes nothing
// else.
#[unsafe(no_mangle)]
pub extern "C" fn planner_event(
    frame: &mut [u64],
    presets: &[u8],
    table: &mut [Cell],
    line: &[u8],
    number: &mut u64,
) -> u32
    ensures done { EventLeaves (event_on frame.old presets.now table.old line.now) frame.old frame.new table.new number.new result }
    ensures claim { EventPromise frame.old presets.now table.old line.now frame.new table.new result }
{
    *number = 0;
    let Some(station) = lent_station(frame, presets) else {
        return refusal_number(Refusal::TooShort);
    };
    let mut moment = moment_of(frame);
    let answer = event_by_value(&station, table, &mut moment, line);
    save_clock(frame, moment.clock);
    save_tie(frame, moment.hold);
    returned(counted(answer), number)
}

// Plans a fresh frame: 8 for a frame below 16 numbers, presets below 128 bytes, grants below 32
// bytes or a table below 512 cells, 2 for a head that no text yields, 5 where the mandatory slots
// do not fit. The grants of the presets stand at the start of `grants` in file order, with 0 past
// the last preset up to 32; bytes past those stay. The clock and the order of ties in force are not
// looked at. A refusal changes nothing.
#[unsafe(no_mangle)]
pub extern "C" fn planner_plan(
    frame: &[u64],
    presets: &[u8],
    table: &mut [Cell],
    grants: &mut [u8],
) -> u32
    ensures done { PlanLeaves (plan_on frame.now presets.now table.old grants.old) grants.old table.new grants.new result }
    ensures claim { PlanPromise frame.now presets.now table.old table.new result }
{
    // 8 is one number, whichever part is short: the grants come first, so that no frame is copied
    // for a refusal.
    if grants.len() < MOST_PRESETS {
        return refusal_number(Refusal::TooShort);
    }
    let Some(station) = lent_station(frame, presets) else {
        return refusal_number(Refusal::TooShort);
    };
    match plan_by_value(&station, table) {
        Ok(granted) => {
            save_grants(grants, granted);
            0
        }
        Err(cause) => refusal_number(cause),
    }
}

// Writes the listing of a whole text at the start of the output, as far as it has room for it: 10
// for more than 32,768 bytes, 8 for an output below 8,192 bytes or a table below 512 cells, which
// change nothing. A refused head or plan is its one refused line. `bytes` is how many bytes were
// written, and 0 with a refusal. An output of 655,360 bytes has room for every listing.
#[unsafe(no_mangle)]
pub extern "C" fn planner_listing(
    text: &[u8],
    table: &mut [Cell],
    out: &mut [u8],
    bytes: &mut u64,
) -> u32
    ensures done { ListingLeaves text.now table.old out.old table.new out.new bytes.new result }
    ensures whole { 655360 ≤ length out.old → ListingWhole text.now table.old out.old out.new bytes.new }
{
    let listed = write_listing(text, table, out);
    returned(written(listed), bytes)
}

// Puts the rows of a text in place of the frame's busy times: 10 for more than 32,768 bytes, 8 for
// a frame below 16 numbers or presets below 128 bytes, 2 for a head that no text yields, then of
// the first row at fault 12 or 2. Where they are read, the masks of the frame are those of the
// rows, its other numbers stay, and `row` is how many rows there are. Where they are refused, `row`
// is the row at fault, 0 before any row, and nothing else changes.
#[unsafe(no_mangle)]
pub extern "C" fn planner_read_rows(
    text: &[u8],
    frame: &mut [u64],
    presets: &[u8],
    row: &mut u64,
) -> u32
    ensures done { RowsLeaves (rows_on text.now frame.old presets.now) frame.old frame.new row.new result }
    ensures claim { RowsPromise text.now frame.old presets.now frame.new row.new result }
{
    *row = 0;
    if MOST_BYTES < text.len() {
        return refusal_number(Refusal::TextTooLong);
    }
    let Some(station) = lent_station(frame, presets) else {
        return refusal_number(Refusal::TooShort);
    };
    let mut head = station.head;
    let read = read_rows_by_value(text, &mut head, &station.presets);
    save_masks(frame, head.busy);
    returned(read, row)
}

// Writes the rows of the frame's busy times at the start of the output: 8 for a frame below 16
// numbers, presets below 128 bytes or an output below 8,192 bytes, 2 for a head that no text
// yields. `bytes` is how many bytes they have, and 0 with a refusal, which changes nothing else;
// bytes past them stay.
#[unsafe(no_mangle)]
pub extern "C" fn planner_write_rows(
    frame: &[u64],
    presets: &[u8],
    out: &mut [u8],
    bytes: &mut u64,
) -> u32
    ensures done { RowsWrittenLeaves frame.now presets.now out.old out.new bytes.new result }
    ensures claim { RowsWrittenPromise frame.now presets.now out.old out.new bytes.new result }
{
    *bytes = 0;
    let Some(station) = lent_station(frame, presets) else {
        return refusal_number(Refusal::TooShort);
    };
    let rows = write_rows_by_value(&station, out);
    returned(written(rows), bytes)
}
