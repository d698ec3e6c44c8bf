// Frames with a supply through the entries over a lent list of preset records: the plan, then
// tables that are lent, as no plan leaves them. What each entry answers is written, and the cells.
// A supply of 1 feeds one motor in each slot; the last slot of a lent table has its optional cell
// on the second bridge, so that a call for this slot evicts it, takes the first bridge, and leaves
// the second empty. A table in which a slot has more cells than the supply feeds is refused by 11,
// a supply of 9 by 2.
use crate::lists::{Lent, show_plan, try_event, try_head, try_run, try_slot, try_text};
use crate::shown::{show_answer, show_called, show_cells, show_written};
use frame::event::set_clock;
use placing::call::call;
use placing::cells::Cell;
use placing::moment::Moment;
use station::entries::write_head;
use station::types::{Call, Job};
use std::io;

// The clock before the last slot, which a call may use then and no other.
const LATE: Moment = Moment {
    clock: 3,
    hold: true,
};

// The call of one job, of one slot.
fn one_job() -> Call {
    Call {
        jobs: [Job {
            number: 9,
            slots: 1,
        }; 8],
        count: 1,
    }
}

// The table of the plan, but for the second bridge of the first slot and both of the last.
fn table_with(first: Cell, a: Cell, b: Cell) -> [Cell; 512] {
    let mut table = [0u16; 512];
    table[..8].copy_from_slice(&[513, first, 514, 0, 770, 0, a, b]);
    table
}

// The plan of a head, and its cells.
fn try_plan(rt: &impl Print, lent: &Lent) -> io::Result<()> {
    let mut table = [0u16; 512];
    show_plan(rt, lent, &mut table)?;
    show_cells(rt, &table)
}

// A call on a table at the clock before the last slot.
fn try_call(rt: &impl Print, lent: &Lent, cells: &[Cell; 512]) -> io::Result<()> {
    let mut table = *cells;
    let called = call(lent.head, &lent.records, &mut table, LATE, one_job());
    show_called(rt, called)?;
    show_cells(rt, &table)
}

// The call as an event line.
fn try_line(rt: &impl Print, lent: &Lent, cells: &[Cell; 512]) -> io::Result<()> {
    let mut table = *cells;
    let mut moment = LATE;
    try_event(rt, lent, &mut table, &mut moment, b"(call (9 1))\n")?;
    show_cells(rt, &table)
}

// The call and another one as a text without a head.
fn try_lines(rt: &impl Print, lent: &Lent, cells: &[Cell; 512]) -> io::Result<()> {
    let mut table = *cells;
    let mut moment = LATE;
    try_run(
        rt,
        lent,
        &mut table,
        &mut moment,
        b"(call (9 1))\n(call (10 1))\n",
    )?;
    show_cells(rt, &table)
}

// The next clock on a table, and the line of its last slot.
fn try_clock(rt: &impl Print, lent: &Lent, cells: &[Cell; 512]) -> io::Result<()> {
    let mut moment = LATE;
    let set = set_clock(lent.head, &lent.records, cells, &mut moment, 4);
    show_answer(rt, set, moment)?;
    try_slot(rt, lent, cells, 4)
}

// A table through the entries on a running frame.
fn try_table(rt: &impl Print, lent: &Lent, cells: [Cell; 512]) -> io::Result<()> {
    try_call(rt, lent, &cells)?;
    try_line(rt, lent, &cells)?;
    try_lines(rt, lent, &cells)?;
    try_clock(rt, lent, &cells)
}

// The head with a supply that no text yields, through the entries that take a head.
fn try_nine(rt: &impl Print, lent: &Lent) -> io::Result<()> {
    let mut out = [0u8; 8192];
    let mut nine = *lent;
    nine.head.supply = 9;
    let written = write_head(nine.head, &nine.records, &mut out);
    show_written(rt, written, &out)?;
    try_plan(rt, &nine)?;
    try_table(rt, &nine, table_with(0, 0, 769))
}

// The head of a text: its plan, a table whose optional cell is evicted and left empty, one with a
// cell too many in the last slot and one in the first, which is past; then the last of these with a
// supply that feeds it, and with one of 9.
fn try_tables(rt: &impl Print, lent: &Lent) -> io::Result<()> {
    try_plan(rt, lent)?;
    try_table(rt, lent, table_with(0, 0, 769))?;
    try_table(rt, lent, table_with(0, 1033, 769))?;
    try_table(rt, lent, table_with(1035, 0, 769))?;
    let mut two = *lent;
    two.head.supply = 2;
    try_table(rt, &two, table_with(1035, 0, 769))?;
    try_nine(rt, lent)
}

// All of it. The second text has a busy cell beside the optional one, which draws nothing.
pub fn try_supplies(rt: &impl Print) -> io::Result<()> {
    let text =
        b"(frame 4 2)\n(supply 1)\n(tie hold)\n(preset 1 0 1 1)\n(preset 2 1 1 1)\n(clock 3)\n(call (9 1))\n(call (10 1))\n";
    println!(rt; "(supplies)")?;
    try_head(rt, text)?;
    try_tables(rt, &Lent::of(text))?;
    try_text(rt, text, false)?;
    let busy =
        b"(frame 2 2)\n(supply 1)\n(busy 1 (2 2))\n(preset 1 0 0 2)\n(clock 1)\n(call (9 1))\n";
    try_text(rt, busy, false)?;
    try_text(rt, b"(frame 1 1)\n(supply 9)\n", false)?;
    Ok(())
}
