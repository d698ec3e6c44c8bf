// The records of heads and calls, and the causes. (They are read from the fields of a case, not by
// the second planner's functions, whose faults would else be in both.)
use second_planner::frames::Frame;
use second_planner::heads::{self, Line};
use second_planner::{self, Case, calls};
use station::types::{Call, Head, Job, Preset, Refusal, Station};

// The number of a name. The presets' numbers do not ascend, so that an order by number would show.
pub fn number_of(name: u8) -> u8 {
    match name {
        0 => 20,
        1 => 10,
        2 => 255,
        _ => 100 + name % 32,
    }
}

// The mask of each bridge's busy slots.
fn busy_of(frame: &Frame) -> [u64; 8] {
    let mut masks = [0; 8];
    for cell in 0..6 {
        if frame.busy.has(cell) {
            masks[cell % frame.bridges] |= 1 << (cell / frame.bridges);
        }
    }
    masks
}

// The record of a case's head, with its supply and an order of ties.
fn head_of(case: &Case, hold: bool) -> Head {
    Head {
        slots: case.frame.slots,
        bridges: case.frame.bridges,
        supply: case.head.supply.unwrap_or(0),
        hold,
        busy: busy_of(&case.frame),
        count: case.head.count,
    }
}

// The record of a line.
fn preset_of(line: Line) -> Preset {
    Preset {
        number: number_of(line.name),
        priority: line.priority,
        mandatory: line.mandatory,
        optional: line.optional,
    }
}

// The preset records. Those past the third are the third again.
fn presets_of(head: &heads::Head) -> [Preset; 32] {
    let [first, second, third] = head.lines.map(preset_of);
    let mut records = [third; 32];
    records[0] = first;
    records[1] = second;
    records
}

// The station of a case, with an order of ties.
pub fn station_of(case: &Case, hold: bool) -> Station {
    Station {
        head: head_of(case, hold),
        presets: presets_of(&case.head),
    }
}

// The record of a job.
fn job_of(job: calls::Job) -> Job {
    Job {
        number: u16::from(number_of(job.name)),
        slots: u16::from(job.slots),
    }
}

// The jobs of a call. Those past the third are the third again.
pub fn call_of(call: &calls::Call) -> Call {
    let [first, second, third] = call.jobs.map(job_of);
    let mut jobs = [third; 8];
    jobs[0] = first;
    jobs[1] = second;
    Call {
        jobs,
        count: call.count,
    }
}

// The cause of a refusal.
pub fn cause_of(refusal: second_planner::Refusal) -> Refusal {
    match refusal {
        second_planner::Refusal::NumberUsed => Refusal::NumberUsed,
        second_planner::Refusal::MandatoryNotFeasible => Refusal::MandatoryNotFeasible,
        second_planner::Refusal::CallNotFeasible => Refusal::CallNotFeasible,
        second_planner::Refusal::NotWellFormed => Refusal::NotWellFormed,
    }
}
