// Rows in place of a head's busy slots, good and at fault, through the entries over a lent list of
// preset records: of each text first how many rows there are, or the row at fault and the cause's
// number, then the rows that are written of the head that it leaves.
use crate::lists::Lent;
use crate::shown::show_written;
use station::entries::{read_rows, write_rows};
use station::types::{Head, NO_HEAD, NO_PRESETS};
use std::io;

// The rows of a text put into a head, and those of the head that is left.
fn try_one(rt: &impl Print, head: Head, text: &[u8]) -> io::Result<()> {
    let mut left = head;
    match read_rows(text, &mut left, &NO_PRESETS) {
        Ok(n) => println!(rt; "(rows {n})")?,
        Err(fault) => println!(rt; "{fault}")?,
    }
    let mut out = [0u8; 8192];
    let written = write_rows(left, &NO_PRESETS, &mut out);
    show_written(rt, written, &out)
}

// Rows that are read: none, two that touch, in any sequence and quoted.
const GOOD: [&[u8]; 3] = [
    b"",
    b"1,1,2\r\n1,3,4\r\n",
    b"2,3,4\r\n1,1,1\r\n\"2\",\"1\",2\r\n",
];

// Rows with a value outside the frame, or the first slot above the last.
const OUTSIDE: [&[u8]; 5] = [
    b"3,1,1\r\n",
    b"0,1,1\r\n",
    b"1,3,2\r\n",
    b"1,1,18446744073709551618\r\n",
    b"3,1,1\r\n1,1\r\n",
];

// Lines that are no row: fields, numbers, blanks, quotes; then their ends.
const NO_ROWS: [&[u8]; 10] = [
    b"9,9\r\n",
    b"1,01,1\r\n",
    b"\"1,1\",1\r\n",
    b"1,1,1,1\r\n",
    b"1, 1,1\r\n",
    b"1,\"1\"\",1\r\n",
    b"bridge,first,last\r\n1,1,1\r\n",
    b"1,1,1\r\n1,2,2",
    b"\r\n",
    b"1,1,1\n",
];

// All of them beside a head with a busy slot, the good ones with every slot of a bridge of the
// longest frame; then a head record that no text yields, beside a text that is too long, and beside
// one without a row.
pub fn try_rows(rt: &impl Print) -> io::Result<()> {
    println!(rt; "(rows in place)")?;
    let head = Lent::of(b"(frame 4 2)\n(busy 1 (4 4))\n").head;
    for text in GOOD {
        try_one(rt, head, text)?;
    }
    try_one(rt, Lent::of(b"(frame 64 8)\n").head, b"1,1,64\r\n")?;
    for text in OUTSIDE {
        try_one(rt, head, text)?;
    }
    for text in NO_ROWS {
        try_one(rt, head, text)?;
    }
    try_one(rt, NO_HEAD, &[0u8; 40000])?;
    try_one(rt, NO_HEAD, b"no row")
}
