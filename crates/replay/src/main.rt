// Runs made cases: reads the file `cases` to its end and prints a line a case.
#![tactic(auto)]

mod buffers;
mod fields;
mod lines;
mod loosen;
mod order_files;
mod pairs;
mod texts;
mod timing;
mod well_formed;

use std::fs::File;
use std::io;
use std::io::{BufReader, BufWriter, Read, Write};

// Serves the next case, and answers whether to go on.
fn serve(cases: &mut impl Read, output: &mut impl Write) -> io::Result<bool> {
    let mut command = [0u8; 1];
    if filling::fill(cases, &mut command)? == 0 {
        return Ok(false);
    }
    let letter = command[0];
    match letter {
        b'w' => well_formed::serve_form(cases, output),
        b'c' => timing::serve_job(cases, output),
        b't' => timing::serve_schedule(cases, output),
        b'l' => loosen::serve_loosen(cases, output),
        b'p' => pairs::serve_pairs(cases, output),
        b'f' => texts::serve_texts(cases, output),
        b'h' => order_files::serve_header(cases, output),
        b'r' => order_files::serve_record(cases, output),
        b'a' => order_files::serve_alike(cases, output),
        _ => lines::bad_cases(output),
    }
}

// A proved loop has to end, and nothing says that a file does: the turns are counted.
fn serve_all(cases: &mut impl Read, output: &mut impl Write) -> io::Result<()> {
    for _ in 0..u64::MAX {
        if !serve(cases, output)? {
            break;
        }
    }
    Ok(())
}

fn main(rt: HostRuntime) -> io::Result<()> {
    let mut cases = BufReader::new(rt.alloc(), File::open(&rt, "cases")?)?;
    let mut output = BufWriter::new(rt.alloc(), rt.stdout())?;
    serve_all(&mut cases, &mut output)?;
    output.flush()
}
