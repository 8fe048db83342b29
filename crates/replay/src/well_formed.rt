// Cases about the form of a job.
use crate::fields::{LONGEST_FIELD, read_field};
use crate::lines;
use std::io;
use std::io::{Read, Write};

// `w`: the well-formedness check.
pub fn serve_form(cases: &mut impl Read, output: &mut impl Write) -> io::Result<bool> {
    let mut file = [0u8; LONGEST_FIELD];
    let Some(n) = read_field(cases, &mut file)? else {
        return lines::bad_cases(output);
    };
    let v = form::check_form(&file[..n]);
    lines::begin(output, b"w", verdict::number(v), verdict::place(v))?;
    lines::end(output)
}
