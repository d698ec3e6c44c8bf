// The brackets of a busy line and of a call.
ghost use Rattle.std.specs.Prelude.{◌≡◌, ◌+◌, ◌≤◌, min, drop};
ghost use Rattle.station.specs.Limits.{most_slots};
ghost use Rattle.station.specs.Form.{read_brackets, read_jobs};
ghost use Rattle.station.specs.Writing.{mask_to};
ghost use Rattle.station.specs.method.Bracket.{BracketAt, MaskedSoFar, stretched, busy_mask_in, jobs_read};

use crate::check::job_in_limits;
use crate::limits::{MOST_JOBS, MOST_SLOTS};
use crate::numbers::{closes_at, number_at, number_then, word_at};
use crate::types::{Job, NO_JOB};

// A bracket of two numbers, as they are read, and the place of the next one; the line ends where
// there is none.
#[derive(Clone, Copy, Debug, PartialEq, Eq, Hash)]
pub struct Bracket {
    pub first: u32,
    pub second: u32,
    pub next: Option<usize>,
}

// The stretches so far, which are in order: the least slot in which the next may begin, and their
// mask.
#[derive(Clone, Copy, Debug, PartialEq, Eq, Hash)]
pub struct Stretches {
    pub from: u32,
    pub mask: u64,
}

// The jobs of a call: how many, whether each is within its limits, and the first eight. `fit` is no
// Option: the jobs of a call that is out of limits go on being counted.
#[derive(Clone, Copy, Debug, PartialEq, Eq, Hash)]
pub struct Jobs {
    pub count: usize,
    pub fit: bool,
    pub jobs: [Job; MOST_JOBS],
}

// The bracket at `at`, with the end of the line or a blank after it.
fn bracket_at(text: &[u8], at: usize) -> Option<Bracket>
    ensures { BracketAt text.now at result }
{
    let open = word_at(text, at, b"(")?;
    let first = number_then(text, open, b" ")?;
    let second = number_at(text, first.next)?;
    let end = second.next;
    if closes_at(text, end, b"))\n") {
        return Some(Bracket {
            first: first.value,
            second: second.value,
            next: None,
        });
    }
    let next = word_at(text, end, b") ")?;
    Some(Bracket {
        first: first.value,
        second: second.value,
        next: Some(next),
    })
}

// The mask of the slots from `first` to `last`, both included. It is put together so that it fits
// where `last` is 64.
pub(crate) fn stretch_mask(first: u32, last: u32) -> u64
    requires { (1 ≤ first) × (first ≤ last) × (last ≤ most_slots) }
    ensures { result ≡ mask_to first last }
{
    let high: u64 = 1u64 << (last - 1);
    let low: u64 = 1u64 << (first - 1);
    high - low + high
}

// The stretches with one more, in a frame of `slots` slots, if it is in order and inside the frame.
fn with_stretch(s: Stretches, first: u32, last: u32, slots: u32) -> Option<Stretches>
    requires { MaskedSoFar s × (slots ≤ most_slots) }
    ensures { result ≡ stretched slots s first last }
{
    if first < s.from || last < first || slots < last {
        return None;
    }
    Some(Stretches {
        from: last + 2,
        mask: s.mask + stretch_mask(first, last),
    })
}

// The loop over the brackets stands here and below: an iterator over them would have to say at its
// end whether the line has its form, and so would be no plainer.
//
// The mask of the stretches from `at` to the end of the line, in a frame of `slots` slots, 64 at
// most. It is none where the line lacks its form, and no mask is in it where a stretch is out of
// order or outside the frame.
pub(crate) fn stretches_at(text: &[u8], at: usize, slots: usize) -> Option<Option<u64>>
    ensures { result ≡ busy_mask_in (min slots most_slots)
        (read_brackets (drop at text.now)) }
{
    let last = slots.min(MOST_SLOTS) as u32;
    let mut so_far = Some(Stretches { from: 1, mask: 0 });
    let mut i = at;
    loop {
        let b = bracket_at(text, i)?;
        if let Some(s) = so_far {
            so_far = with_stretch(s, b.first, b.second, last);
        }
        match b.next {
            Some(next) => i = next,
            None => return Some(so_far.map(|s| s.mask)),
        }
    }
}

// The jobs from `at` to the end of the line.
pub(crate) fn jobs_at(text: &[u8], at: usize) -> Option<Jobs>
    ensures { result ≡ jobs_read (read_jobs (drop at text.now)) }
{
    let mut jobs = [NO_JOB; MOST_JOBS];
    let mut count = 0;
    let mut fit = true;
    let mut i = at;
    loop {
        let b = bracket_at(text, i)?;
        let job = Job {
            number: b.first as u16,
            slots: b.second as u16,
        };
        fit &= job_in_limits(job);
        if count < MOST_JOBS {
            jobs[count] = job;
        }
        count += 1;
        match b.next {
            Some(next) => i = next,
            None => return Some(Jobs { count, fit, jobs }),
        }
    }
}
