// Layer 1, reading: station texts as heads and events, and a head's one text. What must be believed
// of it is specs/, what is proved proofs/Theorems.antt. The entries:
#![tactic(auto)]

pub mod entries; // entries.rt: read_head, write_head, read_rows and write_rows, over a borrowed list of preset records
pub mod lines; // lines.rt: the lines of a text, and line_at, the line from a position on
pub mod events; // events.rt: read_event, an event line as far as it alone decides
pub mod limits; // limits.rt: document 01's limits
pub mod types; // types.rt: the records and answers that the layers share
pub mod causes; // causes.rt: the paper's number of a cause, a cause at a line, and how both are printed
// Reading, from bytes to a head:
mod numbers; // numbers.rt: decimals of any length, and words
mod brackets; // brackets.rt: the stretches of a busy line, the jobs of a call
mod forms; // forms.rt: the seven forms
pub mod heads; // heads.rt: the head of a text, its preset records in an array
pub mod rows; // rows.rt: rows of comma-separated text in place of a head's busy lines, and a head's rows, its preset records in an array
// Writing, from a head to bytes:
pub mod check; // check.rt: whether a job is within its limits, and whether a head record is one that some text yields
pub mod output; // output.rt: bytes, words and numbers into a borrowed output
pub mod write; // write.rt: the one text of a station
// The borrowed list:
pub mod records; // records.rt: preset records out of a borrowed list, and back
