// The seven forms of a line.
ghost use Rattle.std.specs.Prelude.{◌≡◌, ℕ, min};
ghost use Rattle.station.specs.Limits.{most_slots};
ghost use Rattle.station.specs.Form.{frame_in, busy_in, preset_in, clock_in, call_in, tie_in, supply_in, form};
ghost use Rattle.station.specs.method.Numeral.{lone_numeral};
ghost use Rattle.station.specs.method.ReadLine.{line_in, head_form, event_form};

use crate::brackets::{Jobs, jobs_at, stretches_at};
use crate::numbers::{closes_at, number_last, number_then, word_at};

// What a line says, its numbers as they are read. Of a busy line the mask of its stretches, if they
// are in order and inside the frame.
#[derive(Clone, Copy, Debug, PartialEq, Eq, Hash)]
pub enum Line {
    Frame(u32, u32),
    Busy(u32, Option<u64>),
    Preset(PresetLine),
    Clock(u32),
    Call(Jobs),
    Tie(bool),
    Supply(u32),
}

// The numbers of a preset line.
#[derive(Clone, Copy, Debug, PartialEq, Eq, Hash)]
pub struct PresetLine {
    pub number: u32,
    pub priority: u32,
    pub mandatory: u32,
    pub optional: u32,
}

// `(frame S B)`
fn frame_line(line: &[u8]) -> Option<Line>
    ensures { (hi : ℕ) → result ≡ line_in hi (frame_in line.now) }
{
    let at = word_at(line, 0, b"(frame ")?;
    let slots = number_then(line, at, b" ")?;
    let bridges = number_last(line, slots.next)?;
    Some(Line::Frame(slots.value, bridges))
}

// The number of a line that is a word, a number and the line's end.
fn lone_number(line: &[u8], word: &[u8]) -> Option<u32>
    ensures { result ≡ lone_numeral word.now line.now }
{
    let at = word_at(line, 0, word)?;
    number_last(line, at)
}

// `(clock t)`
fn clock_line(line: &[u8]) -> Option<Line>
    ensures { (hi : ℕ) → result ≡ line_in hi (clock_in line.now) }
{
    Some(Line::Clock(lone_number(line, b"(clock ")?))
}

// `(preset n p m o)`
fn preset_line(line: &[u8]) -> Option<Line>
    ensures { (hi : ℕ) → result ≡ line_in hi (preset_in line.now) }
{
    let at = word_at(line, 0, b"(preset ")?;
    let number = number_then(line, at, b" ")?;
    let priority = number_then(line, number.next, b" ")?;
    let mandatory = number_then(line, priority.next, b" ")?;
    let optional = number_last(line, mandatory.next)?;
    Some(Line::Preset(PresetLine {
        number: number.value,
        priority: priority.value,
        mandatory: mandatory.value,
        optional,
    }))
}

// `(supply k)`
fn supply_line(line: &[u8]) -> Option<Line>
    ensures { (hi : ℕ) → result ≡ line_in hi (supply_in line.now) }
{
    Some(Line::Supply(lone_number(line, b"(supply ")?))
}

// `(busy b (f t) (f t))` in a frame of `slots` slots, 64 at most
fn busy_line(line: &[u8], slots: usize) -> Option<Line>
    ensures { result ≡ line_in (min slots most_slots) (busy_in line.now) }
{
    let at = word_at(line, 0, b"(busy ")?;
    let bridge = number_then(line, at, b" ")?;
    let mask = stretches_at(line, bridge.next, slots)?;
    Some(Line::Busy(bridge.value, mask))
}

// `(call (n c) (n c))`
fn call_line(line: &[u8]) -> Option<Line>
    ensures { (hi : ℕ) → result ≡ line_in hi (call_in line.now) }
{
    let at = word_at(line, 0, b"(call ")?;
    Some(Line::Call(jobs_at(line, at)?))
}

// `(tie hold)` or `(tie place)`
fn tie_line(line: &[u8]) -> Option<Line>
    ensures { (hi : ℕ) → result ≡ line_in hi (tie_in line.now) }
{
    if closes_at(line, 0, b"(tie hold)\n") {
        return Some(Line::Tie(true));
    }
    closes_at(line, 0, b"(tie place)\n").then_some(Line::Tie(false))
}

// A line of the head, in a frame of `slots` slots, 64 at most.
fn head_line(line: &[u8], slots: usize) -> Option<Line>
    ensures { result ≡ line_in (min slots most_slots) (head_form line.now) }
{
    frame_line(line)
        .or_else(|| busy_line(line, slots))
        .or_else(|| preset_line(line))
        .or_else(|| supply_line(line))
}

// A line with an event's form.
fn event_line(line: &[u8]) -> Option<Line>
    ensures { (hi : ℕ) → result ≡ line_in hi (event_form line.now) }
{
    clock_line(line)
        .or_else(|| call_line(line))
        .or_else(|| tie_line(line))
}

// What a line says, byte 10 included, in a frame of `slots` slots, 64 at most, if it has one of the
// seven forms and its end.
pub(crate) fn read_line(line: &[u8], slots: usize) -> Option<Line>
    ensures { result ≡ line_in (min slots most_slots) (form line.now) }
{
    head_line(line, slots).or_else(|| event_line(line))
}
