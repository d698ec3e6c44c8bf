// What is counted of the cases, and written at the end.
use std::io;

// The counts of one supply: of plans, of lists of calls and of calls; the evicted cells, and the
// calls that leave one of these empty; what `(tie hold)` and the supply change, what the clock's
// own slot would change, and where the two planners differ.
#[derive(Clone, Copy, Debug, Default, PartialEq, Eq, Hash)]
pub struct Tally {
    pub plans_granted: usize,
    pub plans_refused: usize,
    pub lists_of_calls: usize,
    pub calls_taken: usize,
    pub calls_refused_4: usize,
    pub calls_refused_7: usize,
    pub calls_refused_11: usize,
    pub cells_evicted: usize,
    pub left_empty: usize,
    pub changed_by_hold: usize,
    pub changed_by_supply: usize,
    pub own_slot_barred: usize,
    pub differences: usize,
}

// Adds to a count.
pub fn count(counted: &mut usize, n: usize) {
    *counted = counted.saturating_add(n);
}

// A column of what is written: a supply, and the tally of what is tried with it.
#[derive(Clone, Copy, Debug, PartialEq, Eq, Hash)]
pub struct Column {
    pub supply: Option<usize>,
    pub tally: Tally,
}

impl Column {
    pub fn new(supply: Option<usize>) -> Column {
        Column {
            supply,
            tally: Tally::default(),
        }
    }
}

// Writes words and a number for each column.
fn write_row<F: Fn(&Column) -> usize>(
    rt: &impl Print,
    words: &str,
    columns: &[Column; 4],
    number: F,
) -> io::Result<()>
    requires { F.IsAlwaysCallable number }
{
    print!(rt; "{words:<15}")?;
    for column in columns {
        let n = number(column);
        print!(rt; " {n}")?;
    }
    println!(rt; "")
}

// Writes the supplies, 0 for none, and a line for each count.
pub fn write_columns(rt: &impl Print, columns: &[Column; 4]) -> io::Result<()> {
    write_row(rt, "supply", columns, |c| c.supply.unwrap_or(0))?;
    write_row(rt, "changed by hold", columns, |c| c.tally.changed_by_hold)?;
    write_row(rt, "cells evicted", columns, |c| c.tally.cells_evicted)?;
    write_row(rt, "calls refused 4", columns, |c| c.tally.calls_refused_4)?;
    write_row(rt, "plans refused 5", columns, |c| c.tally.plans_refused)?;
    write_row(rt, "plans granted", columns, |c| c.tally.plans_granted)?;
    write_row(rt, "calls refused 7", columns, |c| c.tally.calls_refused_7)?;
    write_row(rt, "left cell empty", columns, |c| c.tally.left_empty)?;
    write_row(rt, "supply changes", columns, |c| c.tally.changed_by_supply)?;
    write_row(rt, "lists of calls", columns, |c| c.tally.lists_of_calls)?;
    write_row(rt, "refused by 11", columns, |c| c.tally.calls_refused_11)?;
    write_row(rt, "own slot barred", columns, |c| c.tally.own_slot_barred)?;
    write_row(rt, "calls taken", columns, |c| c.tally.calls_taken)?;
    write_row(rt, "differences", columns, |c| c.tally.differences)
}
