// A call on a running frame: the causes, by the counts of the table and the clock, then the
// eviction search, then the jobs into the table. The entry `call` has its presets in a borrowed
// slice of records, `call_by_value` takes a station; `call_by_counts` is for who keeps the counts
// between calls.
ghost use Rattle.std.specs.Prelude.{◌≡◌, true, false, ℕ, ◌<◌, ◌≤◌, length, get_or};
ghost use Rattle.station.specs.Limits.{most_jobs, least_cells};
ghost use Rattle.station.specs.Types.{station_in, valid_station};
ghost use Rattle.placing.specs.Table.{WellFormed, cell, call_cell};
ghost use Rattle.placing.specs.Valid.{job_at};
ghost use Rattle.placing.specs.Types.{jobs_in};
ghost use Rattle.placing.specs.Outcomes.{jobs_outside};
ghost use Rattle.placing.specs.Claims.{Running, CallClaim};
ghost use Rattle.placing.specs.State.{state_at};
ghost use Rattle.placing.specs.Causes.{call_jobs};
ghost use Rattle.placing.specs.method.Counts.{CountsOf};
ghost use Rattle.placing.specs.CallDone.{CallDone};
ghost use Rattle.placing.specs.Entries.{CallEntered, CallEntry};
ghost use Rattle.placing.specs.method.Jobs.{IsCall};
ghost use Rattle.placing.specs.method.CallParts.{CallCarriedOut};

use crate::cells::{CALL, Cell};
use crate::check::frame_cause;
use crate::counts::causes::cause_by_counts;
use crate::counts::needs::job_needs;
use crate::counts::usable::count_slots;
use crate::counts::{Counts, mark_jobs};
use crate::limits::MOST_PLACED;
use crate::moment::Moment;
use crate::rule::{Work, place};
use crate::search::evict;
use station::limits::MOST_JOBS;
use station::types::{Call, Head, Job, Preset, Refusal, Station};

// The call cell with the number of each of the eight job records; 0 past them. Of jobs within their
// limits the numbers are the jobs' own.
fn job_cells(jobs: [Job; MOST_JOBS]) -> [Cell; MOST_PLACED]
    ensures { (n : ℕ) → n ≤ most_jobs → jobs_outside (jobs_in n jobs) ≡ false → (i : ℕ) → i < n → get_or result i 0 ≡ call_cell (job_at (jobs_in n jobs) i).number }
{
    let mut all = [0u16; MOST_PLACED];
    for i in 0..MOST_JOBS {
        all[i] = CALL + jobs[i].number % 256;
    }
    all
}

// Carries out a call that meets no cause but perhaps the last: 7 where it does not fit, and else
// the table is written. No cell is evicted past `clean`: from the first slot on where none is at
// all, else only past the frame, since what goes first are the latest cells of a preset.
fn carry_out(
    station: &Station,
    table: &mut [Cell],
    moment: Moment,
    call: Call,
) -> Result<usize, Refusal>
    ensures { valid_station station.now ≡ true → least_cells ≤ length table.old → WellFormed (station_in station.now) (cell (station_in station.now) table.old)
        → IsCall call → CallCarriedOut (station_in station.now) (jobs_in call.count call.jobs) (state_at table.old moment) table.new result }
{
    let Moment { clock, hold } = moment;
    let n = call.count;
    let needs = job_needs(call.jobs);
    let Ok(found) = evict(table, station, clock, &needs, n) else {
        return Err(Refusal::CallNotFeasible);
    };
    let cells = job_cells(call.jobs);
    let work = Work {
        needs,
        count: n,
        first: [0; MOST_PLACED],
        early: cells,
        late: cells,
    };
    let head = &station.head;
    let clean = if found.count == 0 { 0 } else { head.slots };
    place(table, head, &found.offer, &work, clean, hold);
    Ok(found.count)
}

// Takes a call on a running frame, by the counts of its table and clock: the causes 2, 4, 9 of its
// jobs, then 7 where it does not fit. A refusal changes nothing; a call that is taken brings the
// counts up to the table that it leaves. Who keeps them between calls need not have the table
// counted for each.
pub fn call_by_counts(
    station: &Station,
    table: &mut [Cell],
    moment: Moment,
    call: Call,
    counts: &mut Counts,
) -> Result<usize, Refusal>
    ensures { valid_station station.now ≡ true → Running (station_in station.now) (state_at table.old moment)
        → CountsOf (station_in station.now) moment.clock (cell (station_in station.now) table.old) counts.old
        → CallDone station.now.head station.now.presets (call_jobs call.count call.jobs) (state_at table.old moment) table.new result
        × CountsOf (station_in station.now) moment.clock (cell (station_in station.now) table.new) counts.new }
{
    cause_by_counts(counts, call)?;
    let evicted = carry_out(station, table, moment, call)?;
    mark_jobs(&mut counts.used, call);
    counts.admitted += call.count;
    counts.at_least = count_slots(station.head, table, moment.clock);
    Ok(evicted)
}

// Takes a call on the frame at a moment: the causes 8, 2, 11, then 2, 4, 9 of its jobs, then 7
// where it does not fit. A refusal changes nothing. A frame that 11 lets pass is such a frame
// afterwards. It stays beside `call`: who has 32 records meets no 8 of the list.
pub fn call_by_value(
    station: &Station,
    table: &mut [Cell],
    moment: Moment,
    call: Call,
) -> Result<usize, Refusal>
    ensures done { CallDone station.now.head station.now.presets (call_jobs call.count call.jobs) (state_at table.old moment) table.new result }
    ensures kept { Running (station_in station.now) (state_at table.old moment) → Running (station_in station.now) (state_at table.new moment) }
    ensures claim { CallClaim (station_in station.now) (call_jobs call.count call.jobs) (state_at table.old moment) }
{
    frame_cause(station, table, moment.clock)?;
    let mut counts = Counts::of(station, table, moment.clock);
    call_by_counts(station, table, moment, call, &mut counts)
}

// Takes a call on the frame at a moment, the presets being the list's first records: the causes 8
// (a table below 512 cells or a list below 32 records), 2, 11, then 2, 4, 9 of its jobs, then 7
// where it does not fit. A refusal changes nothing. A frame that 11 lets pass is such a frame
// afterwards.
pub fn call(
    head: Head,
    presets: &[Preset],
    table: &mut [Cell],
    moment: Moment,
    call: Call,
) -> Result<usize, Refusal>
    ensures { CallEntry head presets.now (call_jobs call.count call.jobs) (state_at table.old moment) table.new result }
{
    let station = Station::of(head, presets)?;
    call_by_value(&station, table, moment, call)
}
