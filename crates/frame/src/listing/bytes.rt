// The lines of the listing, as bytes. Document 01, "One listing, whole".
//
// Each function takes station's `Writer`, an output and the place in it. It is total, as the
// writer's methods are: bytes past the end of the output are left out.
ghost use Rattle.std.specs.Prelude.{◌≡◌, ◌≤◌, ◌<◌, length};
ghost use Rattle.station.specs.Limits.{least_output, most_slots, most_bridges};
ghost use Rattle.station.specs.Types.{refusal_in, presets_in};
ghost use Rattle.station.specs.Text.{bytes, ◌then◌};
ghost use Rattle.station.specs.Decimal.{digits};
ghost use Rattle.station.specs.Form.{tie_line, print};
ghost use Rattle.station.specs.Wrote.{Writes, Rest};
ghost use Rattle.placing.specs.Table.{kind_of, number_in};
ghost use Rattle.frame.specs.Types.{answer_in};
ghost use Rattle.frame.specs.Listing.{refused_line, granted_line, answer_line, granted_lines, cell_text, cell_texts, slot_lines};
ghost use Rattle.frame.specs.method.SlotLines.{of_bridges, line_of_slot, lines_of_slots};

use crate::types::Answer;
use placing::cells::{Cell, Kind, number_in};
use station::limits::{MOST_BRIDGES, MOST_PRESETS, MOST_SLOTS};
use station::output::Writer;
use station::types::{Preset, Refusal};

// Writes a line that begins as `start` says and has one number.
fn number_line(out: &mut Writer, start: &[u8], n: usize)
    ensures wrote { Writes out.old (start.now then digits n then bytes ")\n") out.new }
    ensures few { length (digits n) ≤ 20 }
{
    out.word(start);
    out.number(n);
    out.word(b")\n");
}

// Writes `(refused N C)`, the line and the cause's number.
pub(crate) fn refused_line(out: &mut Writer, line: usize, cause: Refusal)
    ensures { Writes out.old (refused_line line (refusal_in cause)) out.new }
{
    out.word(b"(refused ");
    out.numbers_end(line, usize::from(u8::from(cause)));
}

// Writes `(tie hold)` or `(tie place)`: an accepted tie event as it came.
fn tie_line(out: &mut Writer, hold: bool)
    ensures { Writes out.old (print (tie_line hold)) out.new }
{
    if hold {
        out.word(b"(tie hold)\n");
    } else {
        out.word(b"(tie place)\n");
    }
}

// Writes the line of an answer: `(now T)`, `(tie hold)` or `(tie place)`, `(taken K)`, or the
// refused line.
pub(crate) fn answer_line(out: &mut Writer, line: usize, answer: Result<Answer, Refusal>)
    ensures wrote { Writes out.old (answer_line line (answer_in answer)) out.new }
    ensures fits { length (answer_line line (answer_in answer)) ≤ least_output }
{
    match answer {
        Ok(Answer::Now(t)) => number_line(out, b"(now ", t),
        Ok(Answer::Tie(hold)) => tie_line(out, hold),
        Ok(Answer::Taken(n)) => number_line(out, b"(taken ", n),
        Err(cause) => refused_line(out, line, cause),
    }
}

// Writes `(granted N G)`, a preset's number and how many optional slots it has.
pub(crate) fn granted_line(out: &mut Writer, preset: usize, slots: usize)
    ensures { Writes out.old (granted_line preset slots) out.new }
{
    out.word(b"(granted ");
    out.numbers_end(preset, slots);
}

// Writes the granted lines of the first `count` presets, in file order; a count above 32 is as 32.
pub(crate) fn granted_lines(
    out: &mut Writer,
    presets: [Preset; MOST_PRESETS],
    grants: [u8; MOST_PRESETS],
    count: usize,
)
    ensures { Writes out.old (granted_lines grants 0 (presets_in count presets)) out.new }
{
    for i in 0..count.min(MOST_PRESETS) {
        let number = usize::from(presets[i].number);
        granted_line(out, number, usize::from(grants[i]));
    }
}

// Writes a blank and a cell: `0` empty, `-` busy, else the kind's letter and the number.
fn next_cell(out: &mut Writer, value: Cell)
    ensures { Writes out.old (bytes " " then cell_text (kind_of value) (number_in value)) out.new }
{
    let number = number_in(value) as u8;
    match Kind::of(value) {
        Kind::Empty => out.word(b" 0"),
        Kind::Busy => out.word(b" -"),
        Kind::Mandatory => out.lettered(b'm', number),
        Kind::Optional => out.lettered(b'o', number),
        Kind::Call | Kind::Other => out.lettered(b'c', number),
    }
}

// Writes the cells of a slot, counted from 0, each after a blank. The end of the line is left to
// write.
fn slot_cells(out: &mut Writer, bridges: usize, table: &[Cell], slot: usize)
    requires { (slot < most_slots) × (bridges ≤ most_bridges) }
    ensures { Rest out.old (cell_texts (of_bridges bridges) table.now slot 0 bridges) out.new (bytes ")\n") }
{
    let start = slot * bridges;
    for b in 0..bridges {
        let value = table.get(start + b).copied().unwrap_or(0);
        next_cell(out, value);
    }
}

// Writes the line of a slot, counted from 0: `(slot N` and its cells. Writes nothing for a slot
// from 64 on or above 8 bridges, which no frame has.
pub(crate) fn slot_line(out: &mut Writer, bridges: usize, table: &[Cell], slot: usize)
    ensures { Writes out.old (line_of_slot bridges table.now slot) out.new }
{
    if MOST_SLOTS <= slot || MOST_BRIDGES < bridges {
        return;
    }
    out.word(b"(slot ");
    out.number(slot + 1);
    slot_cells(out, bridges, table, slot);
    out.word(b")\n");
}

// Writes the lines of all slots. Writes nothing for more than 64 slots or 8 bridges, which no frame
// has.
pub(crate) fn slot_lines(out: &mut Writer, slots: usize, bridges: usize, table: &[Cell])
    ensures { Writes out.old (lines_of_slots slots bridges table.now) out.new }
{
    if MOST_SLOTS < slots || MOST_BRIDGES < bridges {
        return;
    }
    for s in 0..slots {
        slot_line(out, bridges, table, s);
    }
}
