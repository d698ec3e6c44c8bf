// Reading into a buffer as far as it has room, for the programs: they take standard input whole, or
// its first bytes where there are more than they take.
#![tactic(auto)]

ghost use Rattle.std.specs.Prelude.{◌≡◌, ◌≤◌, length, take, IfOk, IfSome, OnErr};

use std::io;
use std::io::Read;

// Reads until the buffer is full or the input ends, and answers how many bytes it put at the start
// of the buffer: the first of what the reader had left, as many as the buffer has room for. An
// error is the reader's own, and leaves the buffer as long as it was: what stands in it then is not
// said. A loop of its own, since std's `read_to_end` needs a heap and its `read_exact` refuses an
// input that is shorter than the buffer.
pub fn read_full<R: Read>(reader: &mut R, buffer: &mut [u8]) -> io::Result<usize>
    ensures inside { IfOk result (λ n. n ≤ length buffer.new) }
    ensures bytes { IfOk result (λ n. IfSome (R.remaining reader.old)
        (λ left. take n buffer.new ≡ take (length buffer.new) left)) }
    ensures err { OnErr result (length buffer.new ≡ length buffer.old) }
{
    let mut done = 0;
    while done < buffer.len() {
        let more = reader.read(&mut buffer[done..])?;
        if more == 0 {
            return Ok(done);
        }
        done += more;
    }
    Ok(done)
}
