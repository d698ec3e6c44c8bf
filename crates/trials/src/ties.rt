// A text with ties through the entries over a lent list of preset records, the plan by hold and the
// calls under both orders of ties: two presets and then two jobs share one bridge, and each time
// the first slot makes their remaining times equal. What each entry answers is written, the order
// that is in force afterwards, and the cells.
use crate::lists::{Lent, first, show_plan, try_event, try_head, try_run, try_text};
use crate::shown::{show_answer, show_called, show_cells, show_order};
use frame::event::set_clock;
use placing::call::call;
use station::types::{Call, Job};
use std::io;

// The call of two jobs, of one slot and of two.
fn two_jobs() -> Call {
    let mut jobs = [Job {
        number: 10,
        slots: 2,
    }; 8];
    jobs[0] = Job {
        number: 9,
        slots: 1,
    };
    Call { jobs, count: 2 }
}

// The plan by the head's order, then a clock and a call by an order that need not be the head's.
fn try_order(rt: &impl Print, lent: &Lent, hold: bool) -> io::Result<()> {
    let mut table = [0u16; 512];
    let mut moment = first(hold);
    show_plan(rt, lent, &mut table)?;
    let set = set_clock(lent.head, &lent.records, &table, &mut moment, 3);
    show_answer(rt, set, moment)?;
    show_order(rt, moment)?;
    let called = call(lent.head, &lent.records, &mut table, moment, two_jobs());
    show_called(rt, called)?;
    show_cells(rt, &table)
}

// The plan, and an event line under an order.
fn try_line(rt: &impl Print, lent: &Lent, hold: bool, line: &[u8]) -> io::Result<()> {
    let mut table = [0u16; 512];
    let mut moment = first(hold);
    show_plan(rt, lent, &mut table)?;
    try_event(rt, lent, &mut table, &mut moment, line)?;
    show_order(rt, moment)?;
    show_cells(rt, &table)
}

// The plan, and events as a text without a head.
fn try_lines(rt: &impl Print, lent: &Lent, hold: bool, lines: &[u8]) -> io::Result<()> {
    let mut table = [0u16; 512];
    let mut moment = first(hold);
    show_plan(rt, lent, &mut table)?;
    try_run(rt, lent, &mut table, &mut moment, lines)?;
    show_order(rt, moment)?;
    show_cells(rt, &table)
}

// The entries for one event: a call by each order, a tie line, a line that is refused.
fn try_events(rt: &impl Print, lent: &Lent) -> io::Result<()> {
    try_order(rt, lent, false)?;
    try_order(rt, lent, true)?;
    try_line(rt, lent, false, b"(call (9 1) (10 2))\n")?;
    try_line(rt, lent, true, b"(call (9 1) (10 2))\n")?;
    try_line(rt, lent, true, b"(tie place)\n")?;
    try_line(rt, lent, true, b"(tie Place)\n")
}

// All of it. The last text is refused, and leaves the order that was handed in.
pub fn try_ties(rt: &impl Print) -> io::Result<()> {
    let text =
        b"(frame 8 1)\n(tie hold)\n(preset 1 0 1 0)\n(preset 2 0 2 0)\n(call (9 1) (10 2))\n(tie place)\n";
    println!(rt; "(ties)")?;
    try_head(rt, text)?;
    let lent = Lent::of(text);
    try_events(rt, &lent)?;
    try_lines(rt, &lent, false, b"(tie hold)\n(call (9 1) (10 2))\n")?;
    try_lines(rt, &lent, true, b"(tie place)\n(call (9 1) (10 2))\n")?;
    show_order(rt, try_text(rt, text, true)?)?;
    show_order(rt, try_text(rt, b"(frame 1 1)\n(tie place)\n", true)?)
}
