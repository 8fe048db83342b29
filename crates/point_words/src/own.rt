// A job whose points are those of its steps alone.
ghost use Rattle.std.specs.Prelude.{◌≡◌};
ghost use Rattle.point_words.specs.Own as spec;

use job::layout::{Counts, Job};

// A job without its timed facts.
pub fn untimed(job: Job) -> Job
    ensures { result ≡ spec.untimed job }
{
    let count = Counts {
        timed: 0,
        ..job.count
    };
    Job { count, ..job }
}
