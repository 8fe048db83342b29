// Cases about loosening.
use crate::buffers::{FILL, LONGEST_BUFFER};
use crate::fields::{LONGEST_FIELD, read_field, read_number};
use crate::{buffers, lines};
use partialize::answer;
use std::io;
use std::io::{Read, Write};

// Loosens a job into a whole buffer, and prints the line.
fn print_loosened(output: &mut impl Write, file: &[u8], out: &mut [u8]) -> io::Result<bool> {
    let a = partialize::partialize(file, out);
    lines::begin(output, b"l", answer::number(a), answer::place(a))?;
    lines::print_number(output, answer::length(a) as u64)?;
    buffers::print_buffer(output, out)?;
    lines::end(output)
}

// `l`: loosening into a buffer of a given length.
pub fn serve_loosen(cases: &mut impl Read, output: &mut impl Write) -> io::Result<bool> {
    let mut file = [0u8; LONGEST_FIELD];
    let field = read_field(cases, &mut file)?;
    let room = read_number(cases)?;
    let (Some(n), Some(room)) = (field, room) else {
        return lines::bad_cases(output);
    };
    if LONGEST_BUFFER < room {
        return lines::bad_cases(output);
    }
    let mut out = [FILL; LONGEST_BUFFER as usize];
    print_loosened(output, &file[..n], &mut out[..room as usize])
}
