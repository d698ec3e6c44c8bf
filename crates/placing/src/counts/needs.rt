// The lengths of a call's jobs, as the numbers that the search and the placing rule take.
ghost use Rattle.std.specs.Prelude.{ℕ, ◌≤◌, ◌≡◌, false, take};
ghost use Rattle.station.specs.Limits.{most_jobs};
ghost use Rattle.placing.specs.Types.{jobs_in};
ghost use Rattle.placing.specs.Call.{lengths};
ghost use Rattle.placing.specs.Outcomes.{jobs_outside};

use crate::limits::MOST_PLACED;
use station::limits::MOST_JOBS;
use station::types::Job;

// The lengths of the eight job records, and 0 past them. Of jobs within their limits they are the
// jobs' own.
pub(crate) fn job_needs(jobs: [Job; MOST_JOBS]) -> [u8; MOST_PLACED]
    ensures { (n : ℕ) → n ≤ most_jobs → jobs_outside (jobs_in n jobs) ≡ false → lengths (jobs_in n jobs) ≡ take n result }
{
    let mut all = [0u8; MOST_PLACED];
    for i in 0..MOST_JOBS {
        all[i] = (jobs[i].slots % 256) as u8;
    }
    all
}
