// Makes a job of a supplier's two texts: `pddl ACTIONS PLAN JOB`. Prints a line, the job's length or in words what is wrong and where.
#![tactic(auto)]

use filling::fill;
use from_pddl::job_from_texts;
use job_from_notes::file::LONGEST_JOB;
use std::io::Write;
use std::rt::Files;
use std::{env, fs, io};
use telling::LONGEST_LINE;
use texts_answer::TextsAnswer;

// A text may have a byte less, so a longer one is told from those that are not too long.
const MOST_READ: usize = 65536;

// Prints what the texts are answered.
fn say(rt: &impl Print, answer: TextsAnswer) -> io::Result<()> {
    let mut line = [0u8; LONGEST_LINE];
    let n = telling::tell(answer, &mut line);
    io::writer(rt).write_all(&line[..n])
}

// Writes the job that was made and says so, or says why none was.
fn finish(
    rt: &(impl Files + Print),
    path: &str,
    answer: TextsAnswer,
    job: &[u8],
) -> io::Result<()> {
    if let Ok(length) = answer {
        let n = length as usize;
        if job.len() < n {
            return Ok(());
        }
        fs::write(rt, path, &job[..n])?;
    }
    say(rt, answer)
}

fn make(
    rt: &(impl Files + Print),
    actions_path: &str,
    plan_path: &str,
    job_path: &str,
) -> io::Result<()> {
    let mut actions = [0u8; MOST_READ];
    let m = fill(&mut fs::open(rt, actions_path)?, &mut actions)?;
    let mut plan = [0u8; MOST_READ];
    let n = fill(&mut fs::open(rt, plan_path)?, &mut plan)?;
    let mut job = [0u8; LONGEST_JOB];
    let answer = job_from_texts(&actions[..m], &plan[..n], &mut job);
    finish(rt, job_path, answer, &job)
}

fn main(rt: HostRuntime) -> io::Result<()> {
    let words: Vec<String> = env::args(&rt)?.collect(rt.alloc())?;
    match words.as_slice() {
        [_, actions, plan, job] => make(&rt, actions.as_str(), plan.as_str(), job.as_str()),
        _ => println!(rt; "usage: pddl ACTIONS PLAN JOB"),
    }
}
