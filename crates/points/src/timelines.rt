// A job at a list of starts.
use job_reader::reader::JobReader;

// Its points stand as words, group by group in the order of their ticks; and where each group begins.
#[derive(Clone, Copy)]
pub struct Timeline<'a> {
    pub job: JobReader<'a>,
    pub starts: &'a [u32],
    pub points: &'a [u64],
    pub begins: &'a [u16],
}
