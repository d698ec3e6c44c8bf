// The program `rows`: reads the text of a head from standard input and, after an empty line, rows;
// writes the head's text with the rows in place of its busy lines to standard output. Without an
// empty line it writes the head's rows. How texts are read and written is decided in the library.
#![tactic(auto)]

ghost use Rattle.std.specs.Prelude.{◌<◌, ◌≤◌, ◌≡◌, length, take, IfOk, IfErr, IfSome, OnErr};
ghost use Rattle.station.specs.Text.{lines};
ghost use Rattle.station.specs.Types.{refusal_in};
ghost use Rattle.frame.specs.Listing.{refused_line};
ghost use Rattle.rows.specs.Printed.{parts_of, rows_printed};
ghost use Rattle.rows.specs.method.Parts.{parted_at, Printed};

use frame::listing::write_answer;
use reading::read_full;
use station::heads::read_head_by_value;
use station::lines::Lines;
use station::rows::read_rows_by_value;
use station::rows::text::write_rows_by_value;
use station::types::{Fault, NO_HEAD, NO_PRESETS, Station};
use station::write::write_head_by_value;
use std::io;
use std::io::Read;

// Where the first empty line of an input begins, if it has one.
fn empty_line(input: &[u8]) -> Option<usize>
    ensures inside { IfSome result (λ at. at < length input.now) }
    ensures parts { parts_of (lines input.now) ≡ parted_at input.now
        result }
{
    let mut at = 0;
    for line in Lines::new(input) {
        if line == b"\n".as_slice() {
            return Some(at);
        }
        at += line.len();
    }
    None
}

// Writes what is asked of an input: the head's rows, or its text with the rows in place of its busy
// lines. Answers how many bytes that is, or what is refused first, the head or the rows.
fn written(input: &[u8], out: &mut [u8]) -> Result<usize, Fault>
    requires { 8192 ≤ length out.old }
    ensures done { IfOk result (λ n. Printed (rows_printed input.now) out.new n) }
    ensures fault { IfErr result (λ f. rows_printed input.now
        ≡ refused_line f.line (refusal_in f.cause)) }
{
    let mut head = NO_HEAD;
    let mut presets = NO_PRESETS;
    let Some(end) = empty_line(input) else {
        read_head_by_value(input, &mut head, &mut presets)?;
        return Ok(write_rows_by_value(&Station { head, presets }, out)?);
    };
    read_head_by_value(&input[..end], &mut head, &mut presets)?;
    let rows = &input[end + 1..];
    read_rows_by_value(rows, &mut head, &presets)?;
    Ok(write_head_by_value(&Station { head, presets }, out)?)
}

// Writes what the program prints of an input. Answers how many bytes it is.
fn printed(input: &[u8], out: &mut [u8]) -> usize
    requires { 8192 ≤ length out.old }
    ensures inside { result ≤ length out.new }
    ensures bytes { take result out.new ≡ rows_printed input.now }
{
    match written(input, out) {
        Ok(n) => n,
        Err(fault) => write_answer(out, fault.line, Err(fault.cause)).unwrap_or(0),
    }
}

// Reads an input into a buffer, as far as that has room, and answers how many bytes it is. A
// head's text and the rows may have 32,768 bytes each, with the empty line between them. The buffer
// takes one byte more, so that a longer input is seen to be too long.
fn read_input<R: Read>(reader: &mut R, buffer: &mut [u8]) -> io::Result<usize>
    requires { 65538 ≤ length buffer.old }
    ensures inside { IfOk result (λ n. n ≤ length buffer.new) }
    ensures bytes { IfOk result (λ n. IfSome (R.remaining reader.old)
        (λ left. take n buffer.new ≡ take (length buffer.new) left)) }
    ensures err { OnErr result (length buffer.new ≡ length buffer.old) }
{
    read_full(reader, buffer)
}

fn main(rt: HostRuntime) -> io::Result<()> {
    let mut buffer = [0u8; 65538];
    // room for the text of every head, and so for its rows and for a refused line
    let mut output = [0u8; 8192];
    let n = read_input(&mut rt.stdin(), &mut buffer)?;
    let input = &buffer[0..n];
    let k = printed(input, &mut output);
    let bytes = &output[0..k];
    rt.write_all(bytes)
}
