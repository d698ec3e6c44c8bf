// What the entries answer, as lines.
use frame::types::Answer;
use placing::cells::Cell;
use placing::moment::Moment;
use station::types::{Fault, Refusal};
use std::io;

// The name of an order of ties.
pub fn order(hold: bool) -> &'static str {
    if hold { "hold" } else { "place" }
}

// Writes the first n bytes of a text to standard output.
pub fn write_first(rt: &impl Print, text: &[u8], n: usize) -> io::Result<()> {
    match text.get(..n) {
        Some(part) => rt.write_all(part),
        None => Ok(()),
    }
}

// Writes the refused line of what is refused before any line is read.
fn show_refusal(rt: &impl Print, cause: Refusal) -> io::Result<()> {
    println!(rt; "{}", Fault { line: 0, cause })
}

// Writes what was written, or the refused line.
pub fn show_written(
    rt: &impl Print,
    written: Result<usize, Refusal>,
    out: &[u8],
) -> io::Result<()> {
    match written {
        Ok(n) => write_first(rt, out, n),
        Err(cause) => show_refusal(rt, cause),
    }
}

// Writes the listing of a text that ran, or its answers; or the refused line.
pub fn show_run(rt: &impl Print, ended: Result<usize, Fault>, out: &[u8]) -> io::Result<()> {
    match ended {
        Ok(n) => write_first(rt, out, n),
        Err(fault) => println!(rt; "{fault}"),
    }
}

// Writes the grants of the first two presets.
pub fn show_planned(rt: &impl Print, planned: Result<[u8; 32], Refusal>) -> io::Result<()> {
    match planned {
        Ok(grants) => println!(rt; "(granted {} {})", grants[0], grants[1]),
        Err(cause) => show_refusal(rt, cause),
    }
}

// Writes how many cells a call evicts.
pub fn show_called(rt: &impl Print, called: Result<usize, Refusal>) -> io::Result<()> {
    match called {
        Ok(n) => println!(rt; "(taken {n} 0)"),
        Err(cause) => show_refusal(rt, cause),
    }
}

// Writes what an event comes to, and where a clock or a call is accepted the clock.
pub fn show_answer(
    rt: &impl Print,
    answer: Result<Answer, Refusal>,
    moment: Moment,
) -> io::Result<()> {
    match answer {
        Ok(Answer::Now(t)) => println!(rt; "(now {t} {})", moment.clock),
        Ok(Answer::Tie(hold)) => println!(rt; "(tie {})", order(hold)),
        Ok(Answer::Taken(n)) => println!(rt; "(taken {n} {})", moment.clock),
        Err(cause) => show_refusal(rt, cause),
    }
}

// Writes the order of ties in force.
pub fn show_order(rt: &impl Print, moment: Moment) -> io::Result<()> {
    println!(rt; "(in force {})", order(moment.hold))
}

// Writes the first eight cells.
pub fn show_cells(rt: &impl Print, table: &[Cell; 512]) -> io::Result<()> {
    for i in 0..4 {
        println!(rt; "(cells {} {})", table[2 * i], table[2 * i + 1])?;
    }
    Ok(())
}
