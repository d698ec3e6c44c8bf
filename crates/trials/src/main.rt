// The frames to try, run. First texts, good and damaged, two that are long and those of standard
// input: what the reader says of each, and its listing. Then one text through the entries over a
// lent list of preset records, another one through them under both orders of ties, frames with a
// supply, and rows in place of a head's busy slots. Then the planner of crates/placing beside a
// second one, which is written from documents 01 and 02 and tries every placement of small frames,
// with supplies and without: each line that begins `(differs` gives a case in which the two differ,
// or in which their answer is not the best one, and the counts stand at the end. What this program
// writes is compared with the stored output.
#![tactic(auto)]

pub mod records; // records.rt: the records of heads and calls, and the causes
pub mod cells; // cells.rt: the library's table
mod shown; // shown.rt: what the entries answer, as lines
mod texts; // texts.rt: texts and their listings
mod lists; // lists.rt: one text through the entries over a lent list of preset records
mod ties; // ties.rt: a text with ties through them, under both orders
mod supplies; // supplies.rt: frames with a supply through them, and tables that no plan leaves
mod rows; // rows.rt: rows in place of a head's busy slots, through them
mod library; // library.rt: the library's planner on small heads
mod compare; // compare.rt: both planners, and what differs
mod family; // family.rt: the heads, tables and calls that are tried
mod tally; // tally.rt: what is counted of them
mod counts; // counts.rt: all of the small frames, with each supply

use counts::compare_all;
use lists::try_lists;
use reading::read_full;
use rows::try_rows;
use std::io;
use supplies::try_supplies;
use texts::{try_long_texts, try_texts};
use ties::try_ties;

fn main(rt: HostRuntime) -> io::Result<()> {
    try_long_texts(&rt)?;
    let mut input = [0u8; 8192];
    let n = read_full(&mut rt.stdin(), &mut input)?;
    let texts = &input[0..n];
    try_texts(&rt, texts)?;
    try_lists(&rt)?;
    try_ties(&rt)?;
    try_supplies(&rt)?;
    try_rows(&rt)?;
    compare_all(&rt)
}
