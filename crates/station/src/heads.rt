// Reading a head, its preset records in an array: the loop over the lines, and what it answers.
mod steps; // steps.rt: one line more

ghost use Rattle.std.specs.Prelude.{◌≡◌, ◌≤◌, length};
ghost use Rattle.station.specs.Limits.{most_bytes};
ghost use Rattle.station.specs.Reading.{head_of};
ghost use Rattle.station.specs.ReadHead.{left_by, head_read};
ghost use Rattle.station.specs.method.HeadStep.{no_state};

use crate::heads::steps::{Going, Stage, State, has_begun, read_step};
use crate::limits::{MOST_BYTES, MOST_PRESETS};
use crate::lines::Lines;
use crate::types::{Extent, Fault, Head, NO_HEAD, Preset, Refusal};

// The state before line 1.
fn no_state(presets: [Preset; MOST_PRESETS]) -> State
    ensures { result ≡ no_state presets }
{
    State {
        stage: Stage::Frame,
        head: NO_HEAD,
        presets,
    }
}

// The head of a text that is not too long, line by line. Head and records are lent apart, as
// `read_head_by_value` has them.
fn read_lines(
    text: &[u8],
    head: &mut Head,
    presets: &mut [Preset; MOST_PRESETS],
) -> Result<Extent, Fault>
    requires { length text.now ≤ most_bytes }
    ensures { left_by result head.new presets.new
        ≡ head_read (head_of text.now) head.old presets.old }
{
    let mut state = no_state(*presets);
    let mut extent = Extent { lines: 0, bytes: 0 };
    for line in Lines::new(text) {
        match read_step(&mut state, line) {
            Ok(Going::Goes) => {}
            Ok(Going::Ends) => break,
            Err(cause) => return Err(cause.at(extent.lines + 1)),
        }
        extent.lines += 1;
        extent.bytes += line.len();
    }
    if !has_begun(state.stage) {
        return Err(Refusal::OutOfPlace.at(1));
    }
    let records = state.presets;
    *head = state.head;
    *presets = records;
    Ok(extent)
}

// Reads the head of a text: its lines to the first that has an event's form, or to the text's end.
// Answers the number of its lines and bytes; the head and its presets are those read, the records
// past the last stay. Or answers the line at fault, 0 with 10; head and records then stay as they
// were. Both are lent apart, and not as a station: what is lent is written in place.
pub fn read_head_by_value(
    text: &[u8],
    head: &mut Head,
    presets: &mut [Preset; MOST_PRESETS],
) -> Result<Extent, Fault>
    ensures { left_by result head.new presets.new
        ≡ head_read (head_of text.now) head.old presets.old }
{
    if MOST_BYTES < text.len() {
        return Err(Refusal::TextTooLong.into());
    }
    read_lines(text, head, presets)
}
