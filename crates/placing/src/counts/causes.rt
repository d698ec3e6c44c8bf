// The causes of a call itself, tried by the counts of the table and the clock: 2, 4 and 9 of its
// jobs, then 7.
ghost use Rattle.std.specs.Prelude.{ℕ, ◌+◌, ◌*◌, ◌<◌, ◌≤◌, ◌≡◌, false, not};
ghost use Rattle.std.proofs.Math.Option.{none};
ghost use Rattle.laws.specs.Sums.{every};
ghost use Rattle.laws.specs.Lists.{at};
ghost use Rattle.station.specs.Limits.{most_jobs, most_frame_jobs, most_length};
ghost use Rattle.placing.specs.Types.{jobs_in};
ghost use Rattle.placing.specs.Outcomes.{jobs_outside};
ghost use Rattle.placing.specs.Causes.{cause_in, call_jobs};
ghost use Rattle.placing.specs.method.Limits.{capacity_count};
ghost use Rattle.placing.specs.method.Jobs.{IsCall, job_number, is_other, job_new};
ghost use Rattle.placing.specs.method.Counts.{FitBeside, CountedFit, OwnCause, CountedCause};

use crate::counts::Counts;
use crate::sums::{NO_SUMS, Sums};
use station::check::job_in_limits;
use station::limits::{MOST_BRIDGES, MOST_FRAME_JOBS, MOST_JOBS};
use station::types::{Call, Refusal};

// Whether the jobs are no call's: none at all, or one outside its limits.
fn jobs_outside(call: Call) -> bool
    requires { call.count ≤ most_jobs }
    ensures { result ≡ jobs_outside (jobs_in call.count call.jobs) }
{
    call.count == 0
        || call.jobs[..call.count]
            .iter()
            .any(|job| !job_in_limits(*job))
}

// Whether no job before job i has the number of job i.
fn is_first(call: Call, i: usize) -> bool
    requires { i < most_jobs }
    ensures { result ≡ every i (is_other call.jobs (job_number call.jobs i)) }
{
    let number = call.jobs[i].number;
    call.jobs[..i].iter().all(|other| other.number != number)
}

// Whether one of the jobs has a number that is used, or that a job before it has.
fn jobs_used(used: &[bool; 256], call: Call) -> bool
    requires { IsCall call }
    ensures { result ≡ not (every call.count (job_new used.now call.jobs)) }
{
    for i in 0..call.count {
        let number = usize::from(call.jobs[i].number);
        if used[number] || !is_first(call, i) {
            return true;
        }
    }
    false
}

// Whether the jobs fit beside what is unfinished, of which the sums are given, into slots of which
// it is given how many have at least one, two, up to eight free bridges.
fn fits_by_counts(sums: Sums, at_least: &[u8; MOST_BRIDGES], call: Call) -> bool
    requires { IsCall call × ((r : ℕ) → r < capacity_count → at sums.largest r ≤ most_frame_jobs * most_length) × (sums.total ≤ most_frame_jobs * most_length) }
    ensures { FitBeside sums.largest sums.total at_least.now (jobs_in call.count call.jobs) result }
{
    let mut all = sums;
    for i in 0..call.count {
        all.raise(0, usize::from(call.jobs[i].slots));
    }
    !all.lacks(at_least, 1)
}

// Whether the jobs fit into slots of which it is given how many have at least one, two, up to eight
// free bridges. Nothing is unfinished beside them, so that one job alone fits where as many slots
// as it is long have a free bridge: the first entry.
fn jobs_fit(at_least: &[u8; MOST_BRIDGES], call: Call) -> bool
    requires { IsCall call }
    ensures { CountedFit at_least.now (jobs_in call.count call.jobs) result }
{
    if call.count == 1 {
        return call.jobs[0].slots <= u16::from(at_least[0]);
    }
    fits_by_counts(NO_SUMS, at_least, call)
}

// The causes of the jobs of a call, by the numbers that are used and how many of them the call
// cells have: 2 for a ninth job, for none, or for one outside its limits, 4 for a number that is
// used or twice in the call, 9 for more than 64 job numbers.
fn own_cause(counts: &Counts, call: Call) -> Result<(), Refusal>
    ensures { OwnCause counts.now (call_jobs call.count call.jobs) result × (cause_in result ≡ none → (counts.now.admitted + call.count ≤ most_frame_jobs) × IsCall call) }
{
    if MOST_JOBS < call.count || jobs_outside(call) {
        return Err(Refusal::OutOfLimits);
    }
    if jobs_used(&counts.used, call) {
        return Err(Refusal::NumberUsed);
    }
    if MOST_FRAME_JOBS - call.count < counts.admitted {
        return Err(Refusal::TooMany);
    }
    Ok(())
}

// The causes of a call itself, by the counts of the table and the clock: those of its jobs, then 7
// where it does not fit.
pub(crate) fn cause_by_counts(counts: &Counts, call: Call) -> Result<(), Refusal>
    ensures { CountedCause counts.now (call_jobs call.count call.jobs) result × (cause_in result ≡ none → counts.now.admitted + call.count ≤ most_frame_jobs) }
{
    own_cause(counts, call)?;
    if !jobs_fit(&counts.at_least, call) {
        return Err(Refusal::CallNotFeasible);
    }
    Ok(())
}
