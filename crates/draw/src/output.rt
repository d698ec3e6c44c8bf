// Bytes and numbers to standard output. Each function stops at the first write that fails, and
// reports it.
use crate::lines::{content, plain, shown};
use std::io;

// Writes bytes.
pub fn put(rt: &impl Print, bytes: &[u8]) -> io::Result<()> {
    rt.write_all(bytes)
}

// Writes a number.
pub fn number(rt: &impl Print, n: usize) -> io::Result<()> {
    print!(rt; "{n}")
}

// Writes a number after and before some bytes.
pub fn around(rt: &impl Print, first: &[u8], n: usize, last: &[u8]) -> io::Result<()> {
    put(rt, first)?;
    number(rt, n)?;
    put(rt, last)
}

// Writes the start of a group of elements whose origin is moved.
pub fn moved(rt: &impl Print, x: usize, y: usize) -> io::Result<()> {
    around(rt, b"<g transform=\"translate(", x, b" ")?;
    around(rt, b"", y, b")\">")
}

// Writes what is shown of a line, and two dots where that is not all.
pub fn shown_line(rt: &impl Print, line: &[u8]) -> io::Result<()> {
    let n = shown(line);
    for &byte in &line[..n] {
        put(rt, &[plain(byte)])?;
    }
    if n < content(line) {
        put(rt, b"..")?;
    }
    Ok(())
}
