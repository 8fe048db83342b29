// Prints the sheet of the job on standard input, or its refusal.
#![tactic(auto)]

use filling::fill;
use printout::{INPUT, MOST_TEXT, show_input};
use std::io;
use std::io::Write;

fn main(rt: HostRuntime) -> io::Result<()> {
    let mut buffer = [0u8; INPUT];
    let n = fill(&mut rt.stdin(), &mut buffer)?;
    let mut text = [0u8; MOST_TEXT];
    let length = show_input(&buffer, n, &mut text);
    rt.stdout().write_all(&text[..length])
}
