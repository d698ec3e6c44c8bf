// The listing of document 01, its head read into a lent list of preset records and written from it,
// planned, and its events handed over one by one, then as a text: each entry over a lent list once.
// Then those on a running frame at other clocks, and the whole text. What each answers is written,
// and the first eight cells of the table, which are the frame's, after each that changes it. The
// order of ties is everywhere the earlier line's; ties.rt has the other.
use crate::shown::{show_answer, show_called, show_cells, show_planned, show_run, show_written};
use frame::event::{event, set_clock};
use frame::events::run_events;
use frame::listing::write_slot;
use frame::text::run_text;
use placing::call::call;
use placing::cells::Cell;
use placing::moment::Moment;
use placing::plan::plan;
use station::entries::{read_head, write_head};
use station::types::{Call, Head, Job, NO_HEAD, NO_JOB, NO_PRESETS, Preset};
use std::io;

// A head with the list of its preset records.
#[derive(Clone, Copy, Debug, PartialEq, Eq, Hash)]
pub struct Lent {
    pub head: Head,
    pub records: [Preset; 32],
}

// What no text was read into yet.
const NOTHING: Lent = Lent {
    head: NO_HEAD,
    records: NO_PRESETS,
};

impl Lent {
    // The head of a text, read into zeros; still zeros where it is refused.
    pub fn of(text: &[u8]) -> Lent {
        let mut lent = NOTHING;
        let _ = read_head(text, &mut lent.head, &mut lent.records);
        lent
    }
}

// The first clock under an order of ties.
pub fn first(hold: bool) -> Moment {
    Moment { clock: 0, hold }
}

// The first call, of one job.
fn first_call() -> Call {
    let mut jobs = [NO_JOB; 8];
    jobs[0] = Job {
        number: 9,
        slots: 2,
    };
    Call { jobs, count: 1 }
}

// The head of a text read into the list and written from it.
pub fn try_head(rt: &impl Print, text: &[u8]) -> io::Result<()> {
    let mut read = NOTHING;
    match read_head(text, &mut read.head, &mut read.records) {
        Ok(extent) => println!(rt; "(accepted {} {})", extent.lines, extent.bytes)?,
        Err(fault) => println!(rt; "{fault}")?,
    }
    let mut out = [0u8; 8192];
    let written = write_head(read.head, &read.records, &mut out);
    show_written(rt, written, &out)
}

// The plan of a head over a table, and its grants.
pub fn show_plan(rt: &impl Print, lent: &Lent, table: &mut [Cell; 512]) -> io::Result<()> {
    show_planned(rt, plan(lent.head, &lent.records, table))
}

// An event line on a table.
pub fn try_event(
    rt: &impl Print,
    lent: &Lent,
    table: &mut [Cell; 512],
    moment: &mut Moment,
    line: &[u8],
) -> io::Result<()> {
    let answer = event(lent.head, &lent.records, table, moment, line);
    show_answer(rt, answer, *moment)
}

// Events as a text without a head on a table.
pub fn try_run(
    rt: &impl Print,
    lent: &Lent,
    table: &mut [Cell; 512],
    moment: &mut Moment,
    lines: &[u8],
) -> io::Result<()> {
    let mut out = [0u8; 8192];
    let ended = run_events(lent.head, &lent.records, table, moment, lines, &mut out);
    show_run(rt, ended, &out)
}

// The line of a slot.
pub fn try_slot(rt: &impl Print, lent: &Lent, table: &[Cell; 512], slot: usize) -> io::Result<()> {
    let mut out = [0u8; 8192];
    let written = write_slot(lent.head, &lent.records, table, slot, &mut out);
    show_written(rt, written, &out)
}

// A whole text, from records of zeros, where an order of ties is handed in; the order that it
// leaves.
pub fn try_text(rt: &impl Print, text: &[u8], hold: bool) -> io::Result<Moment> {
    let mut read = NOTHING;
    let mut table = [0u16; 512];
    let mut moment = first(hold);
    let mut out = [0u8; 8192];
    let ended = run_text(
        text,
        &mut read.head,
        &mut read.records,
        &mut table,
        &mut moment,
        &mut out,
    );
    show_run(rt, ended, &out)?;
    Ok(moment)
}

// Its plan, then a clock, a call and an event line, each on what the last one left.
fn try_events(rt: &impl Print, lent: &Lent) -> io::Result<()> {
    let mut table = [0u16; 512];
    let mut moment = first(false);
    show_plan(rt, lent, &mut table)?;
    show_cells(rt, &table)?;
    let set = set_clock(lent.head, &lent.records, &table, &mut moment, 2);
    show_answer(rt, set, moment)?;
    let called = call(
        lent.head,
        &lent.records,
        &mut table,
        Moment {
            clock: 2,
            hold: false,
        },
        first_call(),
    );
    show_called(rt, called)?;
    show_cells(rt, &table)?;
    let mut at = Moment {
        clock: 2,
        hold: false,
    };
    try_event(rt, lent, &mut table, &mut at, b"(call (10 1))\n")?;
    show_cells(rt, &table)?;
    try_event(rt, lent, &mut table, &mut at, b"(call (11 1))\n")
}

// Its plan again, then its events as a text without a head, and the line of its third slot.
fn try_lines(rt: &impl Print, lent: &Lent) -> io::Result<()> {
    let mut table = [0u16; 512];
    show_plan(rt, lent, &mut table)?;
    let lines = b"(clock 2)\n(call (9 2))\n(call (10 1))\n(call (11 1))\n";
    try_run(rt, lent, &mut table, &mut first(false), lines)?;
    show_cells(rt, &table)?;
    try_slot(rt, lent, &table, 3)
}

// Its plan once more, and the entries on a running frame at a clock that is lent: a clock, the
// first call and an event line, then the same line as a text. Document 02, 2026-05: "2 and 11 take
// 0 to S + 1 as the clock's range".
fn try_clock(rt: &impl Print, lent: &Lent, clock: usize) -> io::Result<()> {
    let mut table = [0u16; 512];
    let at = Moment { clock, hold: false };
    show_plan(rt, lent, &mut table)?;
    let mut moment = at;
    let set = set_clock(lent.head, &lent.records, &table, &mut moment, 5);
    show_answer(rt, set, moment)?;
    let called = call(lent.head, &lent.records, &mut table, at, first_call());
    show_called(rt, called)?;
    moment = at;
    try_event(rt, lent, &mut table, &mut moment, b"(clock 0)\n")?;
    moment = at;
    try_run(rt, lent, &mut table, &mut moment, b"(clock 0)\n")?;
    show_cells(rt, &table)
}

// All of it: the clocks are the first of its frame, the last, and one more, which meets 11.
pub fn try_lists(rt: &impl Print) -> io::Result<()> {
    let text =
        b"(frame 4 2)\n(busy 2 (2 3))\n(preset 1 0 2 1)\n(preset 2 1 1 2)\n(clock 2)\n(call (9 2))\n(call (10 1))\n(call (11 1))\n";
    println!(rt; "(a lent list)")?;
    try_head(rt, text)?;
    let lent = Lent::of(text);
    try_events(rt, &lent)?;
    try_lines(rt, &lent)?;
    for clock in [0, 5, 6] {
        try_clock(rt, &lent, clock)?;
    }
    try_text(rt, text, false)?;
    Ok(())
}
