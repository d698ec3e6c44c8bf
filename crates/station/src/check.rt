// Limits: whether a job, a frame, a supply line's number and a preset are within theirs, and
// whether a head record is one that some text yields.
ghost use Rattle.std.specs.Prelude.{◌^◌, ◌≡◌, ◌&&◌, map, length, eqb, ltb};
ghost use Rattle.std.specs.List.{list_all};
ghost use Rattle.station.specs.Limits.{most_bridges, most_motors};
ghost use Rattle.station.specs.Head.{preset_of, within, frame_in_limits, preset_in_limits, all_distinct, masks_in};
ghost use Rattle.station.specs.Types.{preset_in, job_in, valid_station};
ghost use Rattle.station.specs.Jobs.{job_in_limits};

use crate::limits::{
    MOST_BRIDGES, MOST_LENGTH, MOST_MANDATORY, MOST_MOTORS, MOST_NUMBER, MOST_OPTIONAL, MOST_SLOTS,
    WORST_PRIORITY,
};
use crate::types::{Job, Preset, Station};

// A job's number and length are within their limits.
pub fn job_in_limits(job: Job) -> bool
    ensures { result ≡ job_in_limits (job_in job) }
{
    (1..=MOST_NUMBER).contains(&u32::from(job.number)) && (1..=MOST_LENGTH).contains(&job.slots)
}

// A frame's numbers of slots and bridges are within their limits.
pub(crate) fn frame_in_limits(slots: usize, bridges: usize) -> bool
    ensures { result ≡ frame_in_limits slots bridges }
{
    (1..=MOST_SLOTS).contains(&slots) && (1..=MOST_BRIDGES).contains(&bridges)
}

// The number of a supply line is within its limits.
pub(crate) fn supply_in_limits(motors: usize) -> bool
    ensures { result ≡ within 1 most_motors motors }
{
    (1..=MOST_MOTORS).contains(&motors)
}

// The values of a preset, in a record or as they are read, are within their limits.
pub(crate) fn preset_in_limits(number: u32, priority: u32, mandatory: u32, optional: u32) -> bool
    ensures { result ≡ preset_in_limits (preset_of number priority mandatory optional) }
{
    (1..=MOST_NUMBER).contains(&number)
        && priority <= WORST_PRIORITY
        && mandatory <= MOST_MANDATORY
        && optional <= MOST_OPTIONAL
}

// A mask has only slots of a frame of `slots` slots.
fn mask_below(mask: u64, slots: usize) -> bool
    ensures { result ≡ ltb mask (2 ^ slots) }
{
    MOST_SLOTS <= slots || mask >> slots == 0
}

// The masks have only slots of a frame of `slots` slots.
fn all_below(masks: &[u64], slots: usize) -> bool
    ensures { result ≡ list_all (λ m. ltb m (2 ^ slots)) masks.now }
{
    masks.iter().all(|mask| mask_below(*mask, slots))
}

// The masks have no slot.
fn all_free(masks: &[u64]) -> bool
    ensures { result ≡ list_all (λ m. eqb m 0) masks.now }
{
    masks.iter().all(|mask| *mask == 0)
}

// There are eight masks, and all have only cells of the frame: none at all past the last bridge.
#[tactic(auto, using(crate::proofs::check::ValidRecord::masks_apart))]
fn masks_in(busy: &[u64; MOST_BRIDGES], bridges: usize, slots: usize) -> bool
    ensures { result ≡ (eqb (length busy.now) most_bridges && masks_in bridges (2 ^ slots) busy.now) }
{
    let (used, unused) = busy.split_at(bridges.min(MOST_BRIDGES));
    all_below(used, slots) && all_free(unused)
}

// The record of a preset within its limits.
fn record_in_limits(preset: Preset) -> bool
    ensures { result ≡ preset_in_limits (preset_in preset) }
{
    preset_in_limits(
        u32::from(preset.number),
        u32::from(preset.priority),
        u32::from(preset.mandatory),
        u32::from(preset.optional),
    )
}

// The presets are within their limits.
fn all_in_limits(presets: &[Preset]) -> bool
    ensures { result ≡ list_all (λ p. preset_in_limits (preset_in p)) presets.now }
{
    presets.iter().all(|preset| record_in_limits(*preset))
}

// No two of the presets have one number. Each number met is marked.
fn all_distinct(presets: &[Preset]) -> bool
    ensures { result ≡ all_distinct (map preset_in presets.now) }
{
    let mut marked = [false; 256];
    for preset in presets {
        let n = usize::from(preset.number);
        if marked[n] {
            return false;
        }
        marked[n] = true;
    }
    true
}

// Some text yields the station: its head record with the first of its preset records.
#[tactic(auto, using(crate::proofs::check::ValidRecord::valid_as_written, crate::proofs::check::ValidRecord::limits_all))]
pub fn valid_record(station: &Station) -> bool
    ensures { result ≡ valid_station station.now }
{
    let head = &station.head;
    let Some(presets) = station.presets.get(..head.count) else {
        return false;
    };
    frame_in_limits(head.slots, head.bridges)
        && head.supply <= MOST_MOTORS
        && masks_in(&head.busy, head.bridges, head.slots)
        && all_in_limits(presets)
        && all_distinct(presets)
}
