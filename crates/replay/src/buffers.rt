// The buffers that something is written into, and how they are printed.
ghost use Rattle.std.specs.Prelude.{◌≤◌, length};

use crate::lines;
use std::io;
use std::io::Write;

// The longest buffer.
pub const LONGEST_BUFFER: u32 = 65536;

// What a buffer holds beforehand.
pub const FILL: u8 = 165;

// A zero is a point: most bytes of a file are zeros, and a program may not print more than a megabyte.
fn print_byte(output: &mut impl Write, b: u8) -> io::Result<()> {
    if b == 0 {
        return output.write_all(b".");
    }
    write!(output, "{b:02x}")
}

fn print_hex(output: &mut impl Write, bytes: &[u8], end: usize) -> io::Result<()>
    requires { end ≤ length bytes.now }
{
    for b in &bytes[..end] {
        print_byte(output, *b)?;
    }
    Ok(())
}

// Where the last byte unlike the filling ends.
fn front(bytes: &[u8]) -> usize
    ensures { result ≤ length bytes.now }
{
    match bytes.iter().rposition(|b| *b != FILL) {
        Some(last) => last + 1,
        None => 0,
    }
}

// Prints a buffer up to its last byte unlike the filling, and how many follow.
pub fn print_buffer(output: &mut impl Write, bytes: &[u8]) -> io::Result<()> {
    let end = front(bytes);
    output.write_all(b" ")?;
    if end == 0 {
        output.write_all(b"-")?;
    }
    print_hex(output, bytes, end)?;
    lines::print_number(output, (bytes.len() - end) as u64)
}
