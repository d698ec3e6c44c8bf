// The heads, tables and calls that are tried, and what is counted of them.
use crate::compare::compare;
use crate::tally::{Column, Tally, count};
use second_planner::calls::{Call, code_of};
use second_planner::cells::Cells;
use second_planner::frames::Frame;
use second_planner::heads::{Head, Line};
use second_planner::tables::{Cell, Table, table_of};
use second_planner::{Answer, Asked, Case, Refusal};
use std::io;

// Counts what the order of ties and the supply change of a case's answer, beside `(tie place)` and
// beside none, and what the clock's own slot would: beside the same call one clock earlier, which
// may use that slot and else the same ones. Clock 0 has no slot. Document 02, 2026-05: "a call can
// no longer use the clock's own slot".
fn count_changes(tally: &mut Tally, case: &Case, after: &Result<Answer, Refusal>) {
    let is_other = |other: Case| other.answer() != *after;
    let place = Case {
        hold: false,
        ..*case
    };
    if case.hold && is_other(place) {
        count(&mut tally.changed_by_hold, 1);
    }
    let head = case.head.with_supply(None);
    if case.head.supply.is_some() && is_other(Case { head, ..*case }) {
        count(&mut tally.changed_by_supply, 1);
    }
    if let Asked::Call(table, call) = case.asked
        && let Some(earlier) = call.clock.checked_sub(1)
    {
        if is_other(case.with_call(table, call.with_clock(earlier))) {
            count(&mut tally.own_slot_barred, 1);
        }
    }
}

// Counts how a call on a table ends.
fn count_call(tally: &mut Tally, table: &Table, after: &Result<Answer, Refusal>) {
    match after {
        Ok(Answer::Taken(taken)) => {
            count(&mut tally.calls_taken, 1);
            count(&mut tally.cells_evicted, taken.evicted);
            if !(table.optional() & taken.table.empty()).is_empty() {
                count(&mut tally.left_empty, 1);
            }
        }
        Err(Refusal::NumberUsed) => count(&mut tally.calls_refused_4, 1),
        Err(Refusal::CallNotFeasible) => count(&mut tally.calls_refused_7, 1),
        Err(Refusal::NotWellFormed) => count(&mut tally.calls_refused_11, 1),
        // These are of plans.
        Ok(Answer::Plan(_)) | Err(Refusal::MandatoryNotFeasible) => {}
    }
}

// A call on a table, beside a case's plan: the table that it leaves. A table that does not obey the
// supply meets 11, and nothing else is counted of it.
fn try_call(
    rt: &impl Print,
    tally: &mut Tally,
    case: &Case,
    table: Table,
    call: Call,
) -> io::Result<Table> {
    let case = case.with_call(table, call);
    let after = compare(rt, tally, &case)?;
    count_call(tally, &table, &after);
    if after != Err(Refusal::NotWellFormed) {
        count_changes(tally, &case, &after);
    }
    Ok(match after {
        Ok(Answer::Taken(taken)) => taken.table,
        _ => table,
    })
}

// A list of three calls on one table, each on what the one before left.
fn try_list(
    rt: &impl Print,
    tally: &mut Tally,
    case: &Case,
    table: Table,
    list: usize,
) -> io::Result<()> {
    count(&mut tally.lists_of_calls, 1);
    let mut left = table;
    for step in 0..3 {
        let call = Call::at(list, step, case.frame.slots);
        left = try_call(rt, tally, case, left, call)?;
    }
    Ok(())
}

// The table with one optional cell made empty: the first from a cell on, if there is one.
fn one_less(table: &Table, from: usize) -> Table {
    let later = table.optional() - Cells::below(from);
    let mut less = *table;
    less.put(later.first(), Cell::Empty);
    less
}

// A head's plan, and two lists of calls, one on the plan and one on it with an optional cell less.
fn try_plan(rt: &impl Print, tally: &mut Tally, case: &Case, list: usize) -> io::Result<()> {
    let after = compare(rt, tally, case)?;
    count_changes(tally, case, &after);
    let Ok(Answer::Plan(plan)) = after else {
        count(&mut tally.plans_refused, 1);
        return Ok(());
    };
    count(&mut tally.plans_granted, 1);
    try_list(rt, tally, case, plan.table, list)?;
    let table = one_less(&plan.table, list % 6);
    try_list(rt, tally, case, table, list)
}

// Whether a code is tried on a frame with a supply: each without one, and each where it feeds fewer
// motors than there are bridges; else one code in 16, since the supply must then change nothing.
fn is_tried(frame: &Frame, supply: Option<usize>, code: usize) -> bool {
    supply.is_none_or(|k| k < frame.bridges) || code % 16 == 5
}

// The head of a code below 42,944, with a supply: each of eleven frames with each set of busy
// cells, and 61 heads with that.
fn try_head(rt: &impl Print, column: &mut Column, code: usize, hold: bool) -> io::Result<()> {
    let busy = Cells::numbered((code / 61 % 64) as u8);
    let Some(frame) = Frame::at(code / 3904, busy) else {
        return Ok(());
    };
    if !is_tried(&frame, column.supply, code) {
        return Ok(());
    }
    let head = Head::of_code(code_of(code)).with_supply(column.supply);
    try_plan(
        rt,
        &mut column.tally,
        &Case::of_plan(frame, head, hold),
        code,
    )
}

// A list of calls on a table, or one call where it does not obey the supply.
fn try_calls(
    rt: &impl Print,
    tally: &mut Tally,
    case: &Case,
    table: Table,
    list: usize,
) -> io::Result<()> {
    if table.is_fed(&case.frame.sets(), case.head.supply) {
        return try_list(rt, tally, case, table, list);
    }
    let call = Call::at(list, 0, case.frame.slots);
    try_call(rt, tally, case, table, call)?;
    Ok(())
}

// The two heads of the tables.
fn head_of(code: usize) -> Head {
    let lines = if code / 4096 % 2 == 0 {
        [
            Line::new(0, 0, 1, 2),
            Line::new(1, 8, 1, 3),
            Line::new(2, 0, 0, 1),
        ]
    } else {
        [
            Line::new(0, 0, 1, 1),
            Line::new(1, 0, 0, 3),
            Line::new(2, 8, 1, 1),
        ]
    };
    Head {
        lines,
        count: 3,
        supply: None,
    }
}

// The table of a code below 90,112, with a supply: each frame, nothing busy, with two heads, and
// for each every table without call cells that is well-formed but perhaps for the supply. The calls
// on it.
fn try_table(rt: &impl Print, column: &mut Column, code: usize, hold: bool) -> io::Result<()> {
    let Some(frame) = Frame::at(code / 8192, Cells::NONE) else {
        return Ok(());
    };
    let head = head_of(code).with_supply(column.supply);
    let case = Case::of_plan(frame, head, hold);
    match table_of(&frame, &head, code % 4096) {
        Some(table) if is_tried(&frame, column.supply, code) => {
            try_calls(rt, &mut column.tally, &case, table, code)
        }
        _ => Ok(()),
    }
}

// A code below 133,056 with a supply, under an order of ties: the heads, then the tables.
pub fn try_code(rt: &impl Print, column: &mut Column, code: usize, hold: bool) -> io::Result<()> {
    if code < 42944 {
        try_head(rt, column, code, hold)
    } else {
        try_table(rt, column, code - 42944, hold)
    }
}
