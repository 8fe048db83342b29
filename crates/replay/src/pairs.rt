// Cases about the search by pairs.
use crate::fields::{LONGEST_FIELD, read_field};
use crate::lines;
use pair_search::answer;
use std::io;
use std::io::{Read, Write};

// `p`: the search by pairs.
pub fn serve_pairs(cases: &mut impl Read, output: &mut impl Write) -> io::Result<bool> {
    let mut file = [0u8; LONGEST_FIELD];
    let Some(n) = read_field(cases, &mut file)? else {
        return lines::bad_cases(output);
    };
    let a = pair_search::compare_pairs(&file[..n]);
    lines::begin(output, b"p", answer::number(a), answer::place(a))?;
    lines::print_number(output, u64::from(answer::compared(a)))?;
    lines::end(output)
}
