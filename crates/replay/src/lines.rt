// The lines that are printed: a letter, a number, a place, and more numbers.
use std::io;
use std::io::Write;

// A line up to its place.
pub fn begin(output: &mut impl Write, letter: &[u8], number: u16, place: u16) -> io::Result<()> {
    output.write_all(letter)?;
    print_number(output, u64::from(number))?;
    print_number(output, u64::from(place))
}

pub fn print_number(output: &mut impl Write, n: u64) -> io::Result<()> {
    write!(output, " {n}")
}

pub fn print_numbers(output: &mut impl Write, values: &[u32; 8]) -> io::Result<()> {
    for value in values {
        print_number(output, u64::from(*value))?;
    }
    Ok(())
}

pub fn print_signed(output: &mut impl Write, n: i32) -> io::Result<()> {
    write!(output, " {n}")
}

// Ends a line, and answers to go on.
pub fn end(output: &mut impl Write) -> io::Result<bool> {
    output.write_all(b"\n")?;
    Ok(true)
}

// Ends the run on a damaged file.
pub fn bad_cases(output: &mut impl Write) -> io::Result<bool> {
    output.write_all(b"bad cases\n")?;
    Ok(false)
}
