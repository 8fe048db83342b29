// Cases about the timing of a job.
ghost use Rattle.std.specs.Prelude.{◌≤◌, length, ◌≡◌};

use crate::fields::{LONGEST_FIELD, read_field, read_number};
use crate::lines;
use std::io;
use std::io::{Read, Write};

// The most starts that a field holds.
const MOST_STARTS: usize = 16384;

// The most starts of 0 that follow them.
const MOST_FURTHER: u32 = 65536;

// As many as both.
const LONGEST_LIST: usize = 81920;

// `c`: the job check.
pub fn serve_job(cases: &mut impl Read, output: &mut impl Write) -> io::Result<bool> {
    let mut file = [0u8; LONGEST_FIELD];
    let Some(n) = read_field(cases, &mut file)? else {
        return lines::bad_cases(output);
    };
    let v = schedule::check_job(&file[..n]);
    lines::begin(output, b"c", verdict::number(v), verdict::place(v))?;
    lines::end(output)
}

// Puts the first n of a field's u32 numbers into a list.
fn decode(bytes: &[u8], n: usize, starts: &mut [u32])
    requires { n ≤ length starts.old }
    ensures { length starts.new ≡ length starts.old }
{
    for i in 0..n {
        starts[i] = little_endian::u32_at(bytes, 4 * i) as u32;
    }
}

fn check_decoded(file: &[u8], bytes: &[u8], n: usize, all: usize) -> verdict::Verdict
    requires n_le_all { n ≤ all }
    requires all_bound { all ≤ 81920 }
{
    let mut starts = [0u32; LONGEST_LIST];
    decode(bytes, n, &mut starts);
    schedule::check_schedule(file, &starts[..all])
}

// `t`: the timing check of the starts in a field and so many further starts of 0.
pub fn serve_schedule(cases: &mut impl Read, output: &mut impl Write) -> io::Result<bool> {
    let mut file = [0u8; LONGEST_FIELD];
    let mut list = [0u8; LONGEST_FIELD];
    let field = read_field(cases, &mut file)?;
    let starts = read_field(cases, &mut list)?;
    let further = read_number(cases)?;
    let (Some(m), Some(len), Some(further)) = (field, starts, further) else {
        return lines::bad_cases(output);
    };
    let n = len / 4;
    if (len % 4 != 0) | (MOST_STARTS < n) | (MOST_FURTHER < further) {
        return lines::bad_cases(output);
    }
    let all = n + further as usize;
    let v = check_decoded(&file[..m], &list[..len], n, all);
    lines::begin(output, b"t", verdict::number(v), verdict::place(v))?;
    lines::end(output)
}
