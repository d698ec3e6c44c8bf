// Texts, good and damaged: of each first what the reader says of its head, then its listing.
//
// A line `(accepted n b)` gives the number of the head's lines and bytes, followed by the head
// written again; a line `(refused n c)` the line and the cause's number. The listing follows a line
// `(listing)`.
use crate::shown::{show_written, write_first};
use frame::listing::write_listing;
use station::heads::read_head_by_value;
use station::types::{NO_HEAD, NO_PRESETS, Station};
use station::write::write_head_by_value;
use std::io;

// The byte between two texts, which no text among them has.
const BETWEEN: u8 = b'#';

// Reads the head of a text and writes what the reader says, and the head again, which must give the
// bytes that were read.
fn show_head(rt: &impl Print, text: &[u8]) -> io::Result<()> {
    let mut head = NO_HEAD;
    let mut presets = NO_PRESETS;
    let extent = match read_head_by_value(text, &mut head, &mut presets) {
        Ok(extent) => extent,
        Err(fault) => return println!(rt; "{fault}"),
    };
    println!(rt; "(accepted {} {})", extent.lines, extent.bytes)?;
    let mut out = [0u8; 8192];
    match write_head_by_value(&Station { head, presets }, &mut out) {
        Ok(n) => write_first(rt, &out, n),
        Err(cause) => println!(rt; "(not written 0 {cause})"),
    }
}

// Runs a whole text and writes its listing.
fn show_listing(rt: &impl Print, text: &[u8]) -> io::Result<()> {
    let mut table = [0u16; 512];
    let mut out = [0u8; 8192];
    let written = write_listing(text, &mut table, &mut out);
    println!(rt; "(listing)")?;
    show_written(rt, written, &out)
}

// Tries a text: its head, then the whole.
fn try_text(rt: &impl Print, text: &[u8]) -> io::Result<()> {
    show_head(rt, text)?;
    show_listing(rt, text)
}

// The longest text that is read, and one byte more; a text of zeros.
pub fn try_long_texts(rt: &impl Print) -> io::Result<()> {
    let ends = [10u8; 32769];
    try_text(rt, &ends[..32768])?;
    try_text(rt, &ends)?;
    try_text(rt, &[0u8; 64])
}

// Tries each text of the input. std's `split` in a `for` is not covered by the check.
pub fn try_texts(rt: &impl Print, input: &[u8]) -> io::Result<()> {
    let mut rest = input;
    while let Some(end) = rest.iter().position(|&byte| byte == BETWEEN) {
        try_text(rt, &rest[..end])?;
        rest = &rest[end + 1..];
    }
    try_text(rt, rest)
}
