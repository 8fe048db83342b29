// What `show` prints of a job: the sheet of its order file, behind a line if a serial mark was ignored, or its refusal.
#![tactic(auto)]

ghost use Rattle.std.specs.Prelude.{◌≤◌, length};
ghost use Rattle.text.specs.Put.{Put, Written};
ghost use Rattle.sheet.specs.Text.{ignored_most};
ghost use Rattle.printout.specs.Shown.{mark_line, shown, most_text, input_most, ShowsInput};

use job::layout::{
    CONDITION, EFFECT, FACT, GOAL, Job, LEVEL, LONGEST_HEADER, NEED, STEP, TIMED, USE, WIDTHS,
    serial_mark,
};
use order_file::layout::{
    FILE_WIDTHS, LINK, MOST_LINKS, MOST_ORDERS, MOST_STEPS, ORDER, WINDOW, WINDOWS_AT,
};
use partialize::{answer, partialize};

// The longest job, with every table at its highest count.
const MOST_JOB: usize = LONGEST_HEADER
    + WIDTHS[FACT] * Job::FACTS as usize
    + WIDTHS[LEVEL] * Job::LEVELS as usize
    + WIDTHS[STEP] * Job::STEPS as usize
    + WIDTHS[CONDITION] * Job::CONDITIONS as usize
    + WIDTHS[EFFECT] * Job::EFFECTS as usize
    + WIDTHS[USE] * Job::USES as usize
    + WIDTHS[GOAL] * Job::GOALS as usize
    + WIDTHS[TIMED] * Job::TIMED as usize
    + WIDTHS[NEED] * Job::NEEDS as usize;

// As much of any input decides what is printed of it.
pub const INPUT: usize = MOST_JOB + 1;

// The longest order file.
pub const MOST_FILE: usize = WINDOWS_AT
    + FILE_WIDTHS[WINDOW] * MOST_STEPS
    + FILE_WIDTHS[ORDER] * MOST_ORDERS
    + FILE_WIDTHS[LINK] * MOST_LINKS;

// The longest text.
pub const MOST_TEXT: usize = 164791;

// Puts the line before the first line of an accepted job, if the job has the serial mark.
fn put_mark(job: &[u8], text: &mut [u8]) -> usize
    ensures { Put text.old 0 (mark_line job.now) text.new result × (result ≤ ignored_most) }
{
    let is_marked = serial_mark(job) == 1;
    if is_marked {
        text::put_word(b"serial mark ignored\n", 0, text)
    } else {
        0
    }
}

// Writes what `show` prints of a job to the front of `text`, and answers how long it is, whether or not there was room for it.
pub fn show_job(job: &[u8], text: &mut [u8]) -> usize
    ensures written { Written (shown job.now) text.old text.new result }
    ensures upper_bound { result ≤ most_text }
{
    let mut file = [0u8; MOST_FILE];
    let a = partialize(job, &mut file);
    let number = answer::number(a);
    if number != 0 {
        return sheet::write_refused(number, answer::place(a), text);
    }
    let length = answer::length(a) as usize;
    let at = put_mark(job, text);
    sheet::put_sheet(&file[..length], at, text)
}

// The same of input that was read into `buffer`, n bytes, to its own end or to the buffer's: the text is that of the whole input.
pub fn show_input(buffer: &[u8], n: usize, text: &mut [u8]) -> usize
    requires { (input_most ≤ length buffer.now) × (n ≤ length buffer.now) }
    ensures shows_input { ShowsInput buffer.now n text.old text.new result }
    ensures upper_bound { result ≤ most_text }
{
    show_job(&buffer[..n], text)
}
