// The plan of a fresh frame: the grants of a head's presets, and the table. The entry `plan` has
// its presets in a borrowed slice of records, `plan_by_value` takes a station.
ghost use Rattle.std.specs.Prelude.{◌≡◌, true, ◌+◌, ◌-◌, ◌≤◌, length};
ghost use Rattle.laws.specs.Lists.{at};
ghost use Rattle.station.specs.Limits.{most_presets, least_cells};
ghost use Rattle.station.specs.Types.{head_in, station_in};
ghost use Rattle.placing.specs.method.Limits.{most_placed};
ghost use Rattle.placing.specs.method.Records.{record_at};
ghost use Rattle.placing.specs.method.Grants.{GrantedValid};
ghost use Rattle.placing.specs.Plan.{tie_of, planned};
ghost use Rattle.placing.specs.Outcomes.{written};
ghost use Rattle.placing.specs.Claims.{PlanClaim};
ghost use Rattle.placing.specs.PlanDone.{PlanDone};
ghost use Rattle.placing.specs.Entries.{PlanEntered};
ghost use Rattle.placing.specs.Types.{filled};
ghost use Rattle.placing.specs.method.PlanParts.{busy_to};

use crate::cells::{BUSY, Cell, MANDATORY, OPTIONAL};
use crate::grants::{Granted, grant};
use crate::lawful::Lawful;
use crate::limits::MOST_PLACED;
use crate::rule::{Work, place};
use station::limits::{LEAST_CELLS, MOST_PRESETS};
use station::types::{Head, Preset, Refusal, Station};

// Makes the first `cells` cells of the table busy. What is free is then written by `place`.
fn mark_busy(table: &mut [Cell], cells: usize)
    requires { cells ≤ length table.old }
    ensures { table.new ≡ busy_to table.old cells }
{
    table[..cells].fill(BUSY);
}

// The cell of the kind that begins at `kind` with the number of each preset; 0 after them.
#[tactic(auto, using(crate::proofs::grants::Arrays::filled_none, crate::proofs::grants::Arrays::filled_more))]
fn preset_cells(lawful: &Lawful, kind: Cell) -> [Cell; MOST_PLACED]
    requires { kind ≤ 1024 }
    ensures { result ≡ filled most_placed lawful.now.station.now.head.count (λ i. kind + (record_at lawful.now.station.now.presets i).number) }
{
    let mut all = [0; MOST_PLACED];
    for i in 0..lawful.station.head.count {
        all[i] = kind + Cell::from(lawful.station.presets[i].number);
    }
    all
}

// What each of the first `k` presets gets beyond its mandatory slots; 0 after them.
#[tactic(auto, using(crate::proofs::grants::Arrays::filled_none, crate::proofs::grants::Arrays::filled_more))]
fn grants_of(needs: [u8; MOST_PLACED], mandatory: [u8; MOST_PLACED], k: usize) -> [u8; MOST_PRESETS]
    requires { k ≤ most_presets }
    ensures { result ≡ filled most_presets k (λ i. at needs i - at mandatory i) }
{
    let mut all = [0; MOST_PRESETS];
    for i in 0..k {
        all[i] = needs[i].saturating_sub(mandatory[i]);
    }
    all
}

// Writes the plan's table: busy cells first, then the presets with what each of them gets.
fn write_plan(lawful: &Lawful, table: &mut [Cell], granted: Granted)
    requires { (least_cells ≤ length table.old) × GrantedValid lawful.now.station.now.head lawful.now.station.now.presets granted }
    ensures { table.new ≡ written (station_in lawful.now.station.now) (planned (tie_of lawful.now.station.now.head.hold) (station_in lawful.now.station.now)) table.old }
{
    let head = &lawful.station.head;
    mark_busy(table, head.slots * head.bridges);
    let work = Work {
        needs: granted.needs,
        count: head.count,
        first: granted.mandatory,
        early: preset_cells(lawful, MANDATORY),
        late: preset_cells(lawful, OPTIONAL),
    };
    // No free cell is empty yet: the busy cells stand in all of them.
    place(table, head, &granted.offer, &work, head.slots, head.hold);
}

// Plans a fresh frame over the whole table, and answers each preset's grant in file order, 0 past
// the last preset: 8 for a table below 512 cells, 2 for a head record that no text yields, 5 where
// the mandatory slots do not fit. A refusal changes nothing. It stays beside `plan`: who has 32
// records meets no 8 of the list.
pub fn plan_by_value(station: &Station, table: &mut [Cell]) -> Result<[u8; MOST_PRESETS], Refusal>
    ensures done { PlanDone station.now.head station.now.presets table.old table.new result }
    ensures claim { PlanClaim (station_in station.now) table.old }
{
    if table.len() < LEAST_CELLS {
        return Err(Refusal::TooShort);
    }
    let granted = grant(station)?;
    let lawful = Lawful { station };
    let needs = granted.needs;
    let mandatory = granted.mandatory;
    let grants = grants_of(needs, mandatory, station.head.count);
    write_plan(&lawful, table, granted);
    Ok(grants)
}

// Plans a fresh frame over the whole table, the presets being the list's first records: 8 for a
// table below 512 cells or a list below 32 records, 2 for a head record that no text yields, 5
// where the mandatory slots do not fit. A refusal changes nothing.
pub fn plan(
    head: Head,
    presets: &[Preset],
    table: &mut [Cell],
) -> Result<[u8; MOST_PRESETS], Refusal>
    ensures done { PlanEntered (length presets.now) head presets.now table.old table.new result }
    ensures claim { PlanClaim (head_in head presets.now) table.old }
{
    let station = Station::of(head, presets)?;
    plan_by_value(&station, table)
}
