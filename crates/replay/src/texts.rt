// Cases about jobs from texts.
use crate::buffers::{FILL, LONGEST_BUFFER};
use crate::fields::{LONGEST_FIELD, read_field, read_number};
use crate::{buffers, lines};
use std::io;
use std::io::{Read, Write};

// Makes two texts into a job in a whole buffer, and prints the line.
fn print_made(
    output: &mut impl Write,
    actions: &[u8],
    plan: &[u8],
    out: &mut [u8],
) -> io::Result<bool> {
    let a = from_pddl::job_from_texts(actions, plan, out);
    lines::begin(
        output,
        b"f",
        texts_answer::number(a),
        texts_answer::place(a),
    )?;
    lines::print_number(output, texts_answer::length(a) as u64)?;
    buffers::print_buffer(output, out)?;
    lines::end(output)
}

// `f`: a job from two texts, into a buffer of a given length.
pub fn serve_texts(cases: &mut impl Read, output: &mut impl Write) -> io::Result<bool> {
    let mut actions = [0u8; LONGEST_FIELD];
    let mut plan = [0u8; LONGEST_FIELD];
    let first = read_field(cases, &mut actions)?;
    let second = read_field(cases, &mut plan)?;
    let room = read_number(cases)?;
    let (Some(n), Some(m), Some(room)) = (first, second, room) else {
        return lines::bad_cases(output);
    };
    if LONGEST_BUFFER < room {
        return lines::bad_cases(output);
    }
    let mut out = [FILL; LONGEST_BUFFER as usize];
    print_made(output, &actions[..n], &plan[..m], &mut out[..room as usize])
}
