// The program `plan`: reads a station file from standard input and writes its listing to standard
// output. What the listing is, is decided in the library.
#![tactic(auto)]

ghost use Rattle.std.specs.Prelude.{◌≤◌, ◌≡◌, length, take, IfOk, IfSome, OnErr};
ghost use Rattle.frame.specs.Text.{whole_of};
ghost use Rattle.frame.specs.Listing.{listing_of};

use frame::listing::{write_answer, write_listing};
use reading::read_full;
use std::io;
use std::io::Read;

// Writes what the program prints of a text into an output with room for every listing: the listing,
// or where the text is too long to be taken, the one line of this refusal. Answers how many bytes
// it is.
fn listing(text: &[u8], table: &mut [u16], out: &mut [u8]) -> usize
    requires { 655360 ≤ length out.old }
    ensures inside { result ≤ length out.new }
    ensures bytes { take result out.new ≡ listing_of
        (whole_of text.now table.old) }
{
    match write_listing(text, table, out) {
        Ok(n) => n,
        Err(cause) => write_answer(out, 0, Err(cause)).unwrap_or(0),
    }
}

// Reads an input into a buffer, as far as that has room, and answers how many bytes it is.
// The buffer takes one byte more than a text may have: a longer text is then seen to be too long,
// and none is cut to one that is not.
fn read_text<R: Read>(reader: &mut R, buffer: &mut [u8]) -> io::Result<usize>
    requires { 32769 ≤ length buffer.old }
    ensures inside { IfOk result (λ n. n ≤ length buffer.new) }
    ensures bytes { IfOk result (λ n. IfSome (R.remaining reader.old)
        (λ left. take n buffer.new ≡ take (length buffer.new) left)) }
    ensures err { OnErr result (length buffer.new ≡ length buffer.old) }
{
    read_full(reader, buffer)
}

// Room for a listing: no text has a longer one.
fn listing_room() -> [u8; 655360]
    ensures { length result ≡ 655360 }
{
    [0; 655360]
}

fn main(rt: HostRuntime) -> io::Result<()> {
    let mut input = [0u8; 32769];
    let mut table = [0u16; 512];
    let mut output = listing_room();
    let n = read_text(&mut rt.stdin(), &mut input)?;
    let text = &input[0..n];
    let k = listing(text, &mut table, &mut output);
    let printed = &output[0..k];
    rt.write_all(printed)
}
