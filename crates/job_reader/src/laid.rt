// Whether the records of a job lie within the bytes. That is a clause of who asks for it and no ghost field of the reader: searches and readers
// of fields take a job of any bytes.
ghost use Rattle.std.specs.Prelude.{◌≡◌, true, ◌+◌, ◌*◌, ◌≤◌};
ghost use Rattle.job_reader.specs.Seen.{IsLaid};

use crate::reader::JobReader;
use job::layout::{CONDITION, EFFECT, NEED, STEP, TIMED, USE, WIDTHS};

// Where the last record of a table ends.
fn table_end(at: u32, width: usize, count: u16) -> usize
    requires { width ≤ 14 }
    ensures { result ≡ at + width * count }
{
    at as usize + width * count as usize
}

impl<'a> JobReader<'a> {
    // Whether the records of steps, conditions, effects, uses, timed facts and needs lie within the bytes.
    pub fn is_laid(self) -> bool
        ensures { (result ≡ true → IsLaid self.entry) × (IsLaid self.entry → result ≡ true) }
    {
        let n = self.bytes.len();
        let at = self.head.at;
        let count = self.head.count;
        (table_end(at.steps, WIDTHS[STEP], count.steps) <= n)
            & (table_end(at.conditions, WIDTHS[CONDITION], count.conditions) <= n)
            & (table_end(at.effects, WIDTHS[EFFECT], count.effects) <= n)
            & (table_end(at.uses, WIDTHS[USE], count.uses) <= n)
            & (table_end(at.timed, WIDTHS[TIMED], count.timed) <= n)
            & (table_end(at.needs, WIDTHS[NEED], count.needs) <= n)
    }
}
