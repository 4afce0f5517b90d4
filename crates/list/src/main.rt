// The listing program: reads a digit of choice and then a table from standard input, and writes the listing to standard output.
#![tactic(auto)]

ghost use Rattle.std.specs.Prelude.{◌<◌, ◌≤◌, IfOk, length, take};
ghost use Rattle.std.specs.Io.KnownBytes.{Consumes, IsAtEnd};

use std::io;
use std::io::{Read, Write};

// Room for the digit and 60,013 bytes of table. Of a longer input the first bytes tell the text: `first-bytes` of listing's laws.
const MOST_INPUT: usize = 60_014;

// Reads until the buffer is full or the input ends, and gives how many bytes it put at the start. A read may give less than it is asked for.
// Kept: a loop over `read`, since `read_exact` says nothing of a shorter input and `read_to_end` asks for the heap, where memory here is fixed.
fn read_full<R: Read>(input: &mut R, buffer: &mut [u8]) -> io::Result<usize>
    ensures bound { IfOk result (λ n. n ≤ length buffer.new) }
    ensures bytes { IfOk result (λ n. Consumes (R.remaining input.old) (R.remaining input.new) (take n buffer.new)) }
    ensures stops { IfOk result (λ n. n < length buffer.new → IsAtEnd (R.remaining input.new)) }
{
    let mut done = 0;
    while done < buffer.len() {
        let n = input.read(&mut buffer[done..])?;
        if n == 0 {
            break;
        }
        done += n;
    }
    Ok(done)
}

fn main(rt: HostRuntime) -> io::Result<()> {
    let mut input = [0u8; MOST_INPUT];
    let n = read_full(&mut rt.stdin(), &mut input)?;
    let mut text = [0u8; listing::MOST_TEXT];
    let length = listing::list(&input[..n], &mut text);
    rt.stdout().write_all(&text[..length])
}
