// The records and answers that the layers share. What each stands for is in specs/Types.antt.
ghost use Rattle.std.specs.Prelude.{◌≡◌, ◌<◌, ◌≤◌, length, take, MatchResult};
ghost use Rattle.station.specs.Limits.{most_presets};

use crate::limits::{LEAST_RECORDS, MOST_BRIDGES, MOST_JOBS, MOST_PRESETS};

// A preset line as a record.
#[derive(Clone, Copy, Debug, PartialEq, Eq, Hash)]
pub struct Preset {
    pub number: u8,
    pub priority: u8,
    pub mandatory: u8,
    pub optional: u8,
}

// A job of a call, as read: a number above 65,535 is kept as 65,535.
#[derive(Clone, Copy, Debug, PartialEq, Eq, Hash)]
pub struct Job {
    pub number: u16,
    pub slots: u16,
}

// What stands past the last record of a list, and past the last job of a call.
pub const NO_RECORD: Preset = Preset {
    number: 0,
    priority: 0,
    mandatory: 0,
    optional: 0,
};

pub const NO_JOB: Job = Job {
    number: 0,
    slots: 0,
};

// The jobs of a call: the first `count` of the list.
#[derive(Clone, Copy, Debug, PartialEq, Eq, Hash)]
pub struct Call {
    pub jobs: [Job; MOST_JOBS],
    pub count: usize,
}

// The preset records of a head without presets.
pub const NO_PRESETS: [Preset; MOST_PRESETS] = [NO_RECORD; MOST_PRESETS];

// The head of a station text without its presets, which stand in a list of 32 records: `count` of
// them are in use. `supply` is the number of its supply line, 0 where it has none; `hold` is
// whether `(tie hold)` stands directly after the frame line or its supply line. The busy cells are
// one mask for each bridge, slot 1 being the lowest bit.
#[derive(Clone, Copy, Debug, PartialEq, Eq, Hash)]
pub struct Head {
    pub slots: usize,
    pub bridges: usize,
    pub supply: usize,
    pub hold: bool,
    pub busy: [u64; MOST_BRIDGES],
    pub count: usize,
}

// A head of zeros, where none was read yet.
pub const NO_HEAD: Head = Head {
    slots: 0,
    bridges: 0,
    supply: 0,
    hold: false,
    busy: [0; MOST_BRIDGES],
    count: 0,
};

// A head with its preset records: the first `head.count` of them are in use. That there are 32 is
// said by `full`, since of an array behind a reference alone the proofs do not know how long it is.
#[derive(Clone, Copy, Debug, PartialEq, Eq, Hash)]
pub struct Station {
    pub head: Head,
    pub presets: [Preset; MOST_PRESETS],
    pub ghost full: { length presets ≡ most_presets },
}

impl Station {
    ghost use Rattle.station.specs.Records.{loaded};

    // The station of a head and the first 32 records of a list: 8 where the list has fewer. The
    // entries take head and list apart, since C and the programs lend a list of any length.
    pub fn of(head: Head, presets: &[Preset]) -> Result<Station, Refusal>
        ensures { MatchResult result
            (λ s. (most_presets ≤ length presets.now) × (s.head ≡ head)
            × (s.presets ≡ take most_presets presets.now) × (s.presets ≡ loaded presets.now))
            (λ cause. (length presets.now < most_presets) × (cause ≡ Refusal.TooShort)) }
    {
        let records = presets
            .first_chunk::<LEAST_RECORDS>()
            .ok_or(Refusal::TooShort)?;
        Ok(Station {
            head,
            presets: *records,
        })
    }
}

// The causes, in the order of their numbers, 1 to 12.
#[derive(Clone, Copy, Debug, PartialEq, Eq, Hash)]
pub enum Refusal {
    NoForm,
    OutOfLimits,
    OutOfPlace,
    NumberUsed,
    MandatoryNotFeasible,
    ClockBack,
    CallNotFeasible,
    TooShort,
    TooMany,
    TextTooLong,
    NotWellFormed,
    NoRow,
}

// How much of a text a head is: its lines and its bytes.
#[derive(Clone, Copy, Debug, PartialEq, Eq, Hash)]
pub struct Extent {
    pub lines: usize,
    pub bytes: usize,
}

// Where a text is refused: the line at fault, counted from 1, and the cause. Line 0 is none: the
// text was refused before any line was read.
#[derive(Clone, Copy, Debug, PartialEq, Eq, Hash)]
pub struct Fault {
    pub line: usize,
    pub cause: Refusal,
}
