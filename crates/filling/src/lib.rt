// Reading into a buffer of fixed size, for programs.
#![tactic(auto)]

ghost use Rattle.std.specs.Io.{ReadsAtMost};

use std::io;
use std::io::Read;

// Reads until the buffer is full or the input ends, and answers how much of the buffer it filled.
pub fn fill(input: &mut impl Read, buffer: &mut [u8]) -> io::Result<usize>
    ensures { ReadsAtMost result buffer.new }
{
    let mut filled = 0;
    // Only the input says how far a read comes, so no range counts the reads.
    while filled < buffer.len() {
        let n = input.read(&mut buffer[filled..])?;
        if n == 0 {
            break;
        }
        filled += n;
    }
    Ok(filled)
}
