// A job as its readings hold it: the caller's own bytes by reference, and what their header says, read once.
use job::layout::Job;

#[derive(Clone, Copy)]
pub struct JobReader<'a> {
    pub bytes: &'a [u8],
    pub head: Job,
}
