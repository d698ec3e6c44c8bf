// Writing a head: the one text of a head record, at the start of the borrowed output.
//
// Each takes the writer of output.rt and is total, as its methods are: none asks for room. That a
// valid head's text has it is shown once, for `write_head_by_value`.
ghost use Rattle.std.specs.Prelude.{◌-◌, ◌≡◌, true, map};
ghost use Rattle.station.specs.Limits.{most_slots};
ghost use Rattle.station.specs.Text.{join};
ghost use Rattle.station.specs.Form.{frame_line, preset_line, print};
ghost use Rattle.station.specs.Writing.{stretches, supply_lines, tie_lines, busy_line_of, busy_lines, text_of};
ghost use Rattle.station.specs.method.Runs.{busy_from, free_from, brackets_of, bracket_text};
ghost use Rattle.station.specs.Types.{preset_in, station_in, valid_station};
ghost use Rattle.station.specs.Refusal.{first_of};
ghost use Rattle.station.specs.WriteHead.{cause_in, write_causes, WroteHead};
ghost use Rattle.station.specs.Wrote.{Writes};

use crate::check::valid_record;
use crate::limits::{LEAST_OUTPUT, MOST_SLOTS};
use crate::output::Writer;
use crate::types::{Preset, Refusal, Station};

// Writes the frame line, `(frame S B)`.
fn frame_line(out: &mut Writer, slots: usize, bridges: usize)
    ensures { Writes out.old (print (frame_line slots bridges)) out.new }
{
    out.word(b"(frame ");
    out.two_numbers(slots, bridges);
    out.word(b")\n");
}

// Writes the supply line of a head that has one, `(supply k)`; else nothing.
fn supply_line(out: &mut Writer, motors: usize)
    ensures { Writes out.old (join (map print (supply_lines motors)))
        out.new }
{
    if motors == 0 {
        return;
    }
    out.word(b"(supply ");
    out.number(motors);
    out.word(b")\n");
}

// Writes the tie line of a head that has one, `(tie hold)`; else nothing.
fn tie_line(out: &mut Writer, hold: bool)
    ensures { Writes out.old (join (map print (tie_lines hold)))
        out.new }
{
    if hold {
        out.word(b"(tie hold)\n");
    }
}

// The first busy slot of a mask from slot `from` on, counted from 0; 64 where there is none, `from`
// where it is past 64.
#[tactic(auto, using(crate::proofs::write::MaskRuns::busy_by_zeros, crate::proofs::write::MaskRuns::busy_past))]
pub(crate) fn next_busy(mask: u64, from: usize) -> usize
    ensures { result ≡ busy_from (most_slots - from) mask from }
{
    if MOST_SLOTS <= from {
        return from;
    }
    MOST_SLOTS.min(from + (mask >> from).trailing_zeros() as usize)
}

// The first free slot of a mask from slot `from` on, counted from 0; 64 where there is none, `from`
// where it is past 64.
#[tactic(auto, using(crate::proofs::write::MaskRuns::free_by_not))]
pub(crate) fn next_free(mask: u64, from: usize) -> usize
    ensures { result ≡ free_from (most_slots - from) mask from }
{
    next_busy(!mask, from)
}

// Writes one bracket of a busy line, `(f t)` and what parts it from the next.
fn bracket(out: &mut Writer, first: usize, last: usize, more: bool)
    ensures { Writes out.old (bracket_text first last more) out.new }
{
    out.put(b'(');
    out.two_numbers(first, last);
    if more {
        out.word(b") ");
    } else {
        out.word(b"))\n");
    }
}

// Writes a bracket for each run of busy slots of a mask, and the end of the line; nothing where no
// slot is busy. rows/text.rt has the same walk: an iterator of runs, with what it promises, would
// be longer than both.
fn stretch_list(out: &mut Writer, mask: u64)
    ensures { Writes out.old (brackets_of (stretches most_slots 1 mask))
        out.new }
{
    let mut from = next_busy(mask, 0);
    while from < MOST_SLOTS {
        let to = next_free(mask, from);
        let next = next_busy(mask, to);
        bracket(out, from + 1, to, next < MOST_SLOTS);
        from = next;
    }
}

// Writes the busy line of a bridge, `(busy b (f t) (f t))`; nothing where no slot of it is busy.
fn busy_line(out: &mut Writer, bridge: usize, mask: u64)
    ensures { Writes out.old
        (join (map print (busy_line_of bridge (stretches most_slots 1 mask)))) out.new }
{
    if mask == 0 {
        return;
    }
    out.word(b"(busy ");
    out.number(bridge);
    out.put(b' ');
    stretch_list(out, mask);
}

// Writes the busy lines of the bridges, in ascending order.
fn busy_lines(out: &mut Writer, busy: &[u64])
    ensures { Writes out.old (join (map print (busy_lines 1 busy.now)))
        out.new }
{
    for (b, mask) in busy.iter().enumerate() {
        busy_line(out, b + 1, *mask);
    }
}

// Writes a preset line, `(preset n p m o)`.
fn preset_line(out: &mut Writer, preset: Preset)
    ensures { Writes out.old (print (preset_line (preset_in preset)))
        out.new }
{
    out.word(b"(preset ");
    out.two_numbers(usize::from(preset.number), usize::from(preset.priority));
    out.put(b' ');
    out.two_numbers(usize::from(preset.mandatory), usize::from(preset.optional));
    out.word(b")\n");
}

// Writes the lines of the presets, in file order.
fn preset_lines(out: &mut Writer, presets: &[Preset])
    ensures { Writes out.old
        (join (map print (map preset_line (map preset_in presets.now)))) out.new }
{
    for preset in presets {
        preset_line(out, *preset);
    }
}

// Writes the text of a valid station.
fn head_text(out: &mut Writer, station: &Station)
    requires { valid_station station.now ≡ true }
    ensures { Writes out.old (text_of (station_in station.now)) out.new }
{
    let head = &station.head;
    frame_line(out, head.slots, head.bridges);
    supply_line(out, head.supply);
    tie_line(out, head.hold);
    busy_lines(out, &head.busy);
    preset_lines(out, &station.presets[..head.count]);
}

// The causes of writing a head, its text or its rows: 8 for an output below 8,192 bytes, whatever
// the frame, and 2 for a head record that no text yields.
#[tactic(auto, unfolding(crate::specs::Refusal::first_of))]
pub(crate) fn write_cause(station: &Station, out: &[u8]) -> Result<(), Refusal>
    ensures { cause_in result ≡ first_of (write_causes station.now.head station.now.presets out.now) }
{
    if out.len() < LEAST_OUTPUT {
        return Err(Refusal::TooShort);
    }
    if !valid_record(station) {
        return Err(Refusal::OutOfLimits);
    }
    Ok(())
}

// Writes the one text of a station's head at the start of the output and answers its length; the
// bytes past it stay. Refused with 8 for an output below 8,192 bytes, whatever the frame, and with
// 2 for a head record that no text yields; the output then stays as it was. It stays beside
// `write_head`: who has 32 records meets no 8 of the list.
pub fn write_head_by_value(station: &Station, out: &mut [u8]) -> Result<usize, Refusal>
    ensures { WroteHead station.now.head station.now.presets out.old result out.new }
{
    write_cause(station, out)?;
    let mut writer = Writer::new(out, 0);
    head_text(&mut writer, station);
    Ok(writer.place())
}
