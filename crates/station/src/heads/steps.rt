// One line of a head, held against what the lines before it make.
#![tactic(auto, unfolding(crate::specs::Refusal::first_of))]

ghost use Rattle.std.specs.Prelude.{◌≡◌, ◌≤◌, true, min, take, eqb};
ghost use Rattle.std.specs.List.{list_any};
ghost use Rattle.station.specs.Limits.{most_slots, most_bridges};
ghost use Rattle.station.specs.Head.{InLimits};
ghost use Rattle.station.specs.Form.{form};
ghost use Rattle.station.specs.method.ReadLine.{line_in};
ghost use Rattle.station.specs.Reading.{begun, supply_misplaced, busy_misplaced};
ghost use Rattle.station.specs.ReadHead.{record_of};
ghost use Rattle.station.specs.method.HeadStep.{stage_in, preset_said, stepped, frame_step, supply_step, head_tie_step, tie_step, busy_step, preset_step, first_step, next_step, step_of};

use crate::check::{frame_in_limits, preset_in_limits, supply_in_limits};
use crate::forms::{Line, PresetLine, read_line};
use crate::limits::MOST_PRESETS;
use crate::types::{Head, NO_HEAD, Preset, Refusal};

// How far a head was read: at the frame line; directly after it, where the head's supply line
// stands, and its tie line where there is no supply line; right after the supply line, where its
// tie line stands; at the busy lines, the next with this bridge at the least; at the presets.
#[derive(Clone, Copy, Debug, PartialEq, Eq, Hash)]
pub(crate) enum Stage {
    Frame,
    Supply,
    Tie,
    Busy(usize),
    Presets,
}

// What the lines read so far make: the stage, the head and its preset records. That the head has at
// most 8 bridges stands in the contracts of three steps and not in a ghost field: each definition
// of specs/method/HeadStep that makes a state of any numbers would have to prove it.
#[derive(Clone, Copy, Debug, PartialEq, Eq, Hash)]
pub(crate) struct State {
    pub stage: Stage,
    pub head: Head,
    pub presets: [Preset; MOST_PRESETS],
}

// What a line that is not refused means for the reading: it goes on, or the head ended before the
// line. Where it does not go on, the state is that before the line.
#[derive(Clone, Copy, Debug, PartialEq, Eq, Hash)]
pub(crate) enum Going {
    Goes,
    Ends,
}

// Whether the frame line was read.
pub(crate) fn has_begun(stage: Stage) -> bool
    ensures { result ≡ begun (stage_in stage) }
{
    !matches!(stage, Stage::Frame)
}

// Whether a supply line is out of its place: anywhere but directly after the frame line.
fn supply_misplaced(stage: Stage) -> bool
    ensures { result ≡ supply_misplaced (stage_in stage) }
{
    !matches!(stage, Stage::Supply)
}

// Whether a busy line of that bridge is out of its place: on line 1, after a preset line, or where
// its bridge does not ascend.
fn busy_misplaced(stage: Stage, bridge: usize) -> bool
    ensures { result ≡ busy_misplaced (stage_in stage) bridge }
{
    match stage {
        Stage::Supply | Stage::Tie => false,
        Stage::Busy(least) => bridge < least,
        Stage::Frame | Stage::Presets => true,
    }
}

// Whether one of the first `count` preset records has the number.
fn number_used(presets: &[Preset; MOST_PRESETS], count: usize, number: u32) -> bool
    ensures { result ≡ list_any (λ p. eqb number p.number) (take count presets.now) }
{
    presets
        .iter()
        .take(count)
        .any(|p| number == u32::from(p.number))
}

// The record of a preset line within its limits, which all fit a byte.
fn record_of(line: PresetLine) -> Preset
    requires { InLimits (preset_said line) }
    ensures { result ≡ record_of (preset_said line) }
{
    Preset {
        number: line.number as u8,
        priority: line.priority as u8,
        mandatory: line.mandatory as u8,
        optional: line.optional as u8,
    }
}

// A frame line on line 1: refused where a value is outside its limits, else the head begins.
fn frame_step(state: &mut State, slots: u32, bridges: u32) -> Result<Going, Refusal>
    ensures { stepped result state.new ≡ frame_step state.old slots bridges }
{
    if !frame_in_limits(slots as usize, bridges as usize) {
        return Err(Refusal::OutOfLimits);
    }
    state.head = Head {
        slots: slots as usize,
        bridges: bridges as usize,
        ..NO_HEAD
    };
    state.stage = Stage::Supply;
    Ok(Going::Goes)
}

// A supply line after the frame line: refused anywhere but directly after it, and where its number
// is outside its limits; else the head has its number.
fn supply_step(state: &mut State, motors: u32) -> Result<Going, Refusal>
    ensures { stepped result state.new ≡ supply_step state.old motors }
{
    if supply_misplaced(state.stage) {
        return Err(Refusal::OutOfPlace);
    }
    if !supply_in_limits(motors as usize) {
        return Err(Refusal::OutOfLimits);
    }
    state.head.supply = motors as usize;
    state.stage = Stage::Tie;
    Ok(Going::Goes)
}

// The head's tie line, directly after the frame line or its supply line: place is out of its place
// there.
fn tie_in_head(state: &mut State, hold: bool) -> Result<Going, Refusal>
    ensures { stepped result state.new ≡ head_tie_step state.old hold }
{
    if !hold {
        return Err(Refusal::OutOfPlace);
    }
    state.head.hold = true;
    state.stage = Stage::Busy(0);
    Ok(Going::Goes)
}

// A tie line after the frame line: anywhere but directly after it or its supply line, it ends the
// head before it, as an event does.
fn tie_step(state: &mut State, hold: bool) -> Result<Going, Refusal>
    ensures { stepped result state.new ≡ tie_step state.old hold }
{
    match state.stage {
        Stage::Frame => Err(Refusal::OutOfPlace),
        Stage::Supply | Stage::Tie => tie_in_head(state, hold),
        Stage::Busy(_) | Stage::Presets => Ok(Going::Ends),
    }
}

// A busy line after the frame line: refused after a preset line, where its bridge does not ascend,
// and where its bridge or a stretch is outside the frame; else the bridge has its mask.
fn busy_step(state: &mut State, bridge: u32, mask: Option<u64>) -> Result<Going, Refusal>
    requires { state.old.head.bridges ≤ most_bridges }
    ensures { stepped result state.new ≡ busy_step state.old bridge mask }
{
    let at = bridge as usize;
    if busy_misplaced(state.stage, at) {
        return Err(Refusal::OutOfPlace);
    }
    if at < 1 || state.head.bridges < at {
        return Err(Refusal::OutOfLimits);
    }
    let Some(mask) = mask else {
        return Err(Refusal::OutOfLimits);
    };
    state.head.busy[at - 1] = mask;
    state.stage = Stage::Busy(at + 1);
    Ok(Going::Goes)
}

// A preset line after the frame line: refused where a value is outside its limits, where its number
// is used, and where it is the 33rd; else it is the last of the presets.
#[tactic(auto, using(crate::proofs::heads::OneLine::used_any), unfolding(crate::specs::Refusal::first_of))]
fn preset_step(state: &mut State, line: PresetLine) -> Result<Going, Refusal>
    ensures { stepped result state.new ≡ preset_step state.old (preset_said line) }
{
    let count = state.head.count;
    if !preset_in_limits(line.number, line.priority, line.mandatory, line.optional) {
        return Err(Refusal::OutOfLimits);
    }
    if number_used(&state.presets, count, line.number) {
        return Err(Refusal::NumberUsed);
    }
    if MOST_PRESETS <= count {
        return Err(Refusal::TooMany);
    }
    state.presets[count] = record_of(line);
    state.head.count = count + 1;
    state.stage = Stage::Presets;
    Ok(Going::Goes)
}

// Line 1: only a frame line is in its place.
fn first_step(state: &mut State, line: Line) -> Result<Going, Refusal>
    ensures { stepped result state.new ≡ first_step state.old line }
{
    match line {
        Line::Frame(slots, bridges) => frame_step(state, slots, bridges),
        _ => Err(Refusal::OutOfPlace),
    }
}

// A line after line 1: an event ends the head before it, and so does a tie line that is not the
// head's.
fn next_step(state: &mut State, line: Line) -> Result<Going, Refusal>
    requires { state.old.head.bridges ≤ most_bridges }
    ensures { stepped result state.new ≡ next_step state.old line }
{
    match line {
        Line::Frame(_, _) => Err(Refusal::OutOfPlace),
        Line::Busy(bridge, mask) => busy_step(state, bridge, mask),
        Line::Preset(preset) => preset_step(state, preset),
        Line::Clock(_) | Line::Call(_) => Ok(Going::Ends),
        Line::Tie(hold) => tie_step(state, hold),
        Line::Supply(motors) => supply_step(state, motors),
    }
}

// One line more. The stretches of a busy line are held against the frame's slots.
pub(crate) fn read_step(state: &mut State, line: &[u8]) -> Result<Going, Refusal>
    requires { state.old.head.bridges ≤ most_bridges }
    ensures { stepped result state.new ≡ step_of state.old
        (line_in (min state.old.head.slots most_slots) (form line.now)) }
{
    let Some(said) = read_line(line, state.head.slots) else {
        return Err(Refusal::NoForm);
    };
    if has_begun(state.stage) {
        next_step(state, said)
    } else {
        first_step(state, said)
    }
}
