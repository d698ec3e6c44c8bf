// The library's planner on small heads and tables.
use crate::cells::{MARK, table_of};
use crate::records::{call_of, cause_of, station_of};
use placing::call::call_by_value;
use placing::moment::Moment;
use placing::plan::plan_by_value;
use second_planner::calls::Call;
use second_planner::tables::Table;
use second_planner::{Answer, Asked, Case, Refusal};

// Whether the library's plan is what the second planner answers. All cells are marks before, and
// stay so where the plan is refused.
fn plans_so(case: &Case, right: &Result<Answer, Refusal>) -> bool {
    let mut table = [MARK; 512];
    let planned = plan_by_value(&station_of(case, case.hold), &mut table);
    match (planned, right) {
        (Ok(grants), Ok(Answer::Plan(plan))) => {
            grants.starts_with(&plan.grants) && table == table_of(&case.frame, &plan.table)
        }
        (Err(cause), Err(refusal)) => cause == cause_of(*refusal) && table == [MARK; 512],
        _ => false,
    }
}

// Whether the library makes of a call on a table what the second planner answers. The head's order
// of ties is the other one: a call goes by the order in force.
fn takes_so(case: &Case, table: &Table, call: &Call, right: &Result<Answer, Refusal>) -> bool {
    let before = table_of(&case.frame, table);
    let mut after = before;
    let moment = Moment {
        clock: call.clock,
        hold: case.hold,
    };
    let station = station_of(case, !case.hold);
    let taken = call_by_value(&station, &mut after, moment, call_of(call));
    match (taken, right) {
        (Ok(evicted), Ok(Answer::Taken(taken))) => {
            evicted == taken.evicted && after == table_of(&case.frame, &taken.table)
        }
        (Err(cause), Err(refusal)) => cause == cause_of(*refusal) && after == before,
        _ => false,
    }
}

// Whether the library answers a case as the second planner does, and leaves the same table.
pub fn answers_so(case: &Case, right: &Result<Answer, Refusal>) -> bool {
    match &case.asked {
        Asked::Plan => plans_so(case, right),
        Asked::Call(table, call) => takes_so(case, table, call, right),
    }
}
