// The numbers that links have in the file: a timed fact's is 512 plus its own.
ghost use Rattle.std.specs.Prelude.{◌≡◌, ℕ, List};
ghost use Rattle.job.specs.Model.{view};
ghost use Rattle.orders.specs.File.{link_number};
ghost use Rattle.links.specs.Numbered.{Few, LinkKnown, AllKnown, Numbered};

use job::layout::Job;
use order_file::layout::INITIAL_STATE;

fn link_number(job: Job, link: u16) -> u16
    requires { LinkKnown job.count link × Few job.count }
    ensures { (s : List ℕ) → result ≡ link_number (view job s) link }
{
    if (link < job.count.effects) | (link == INITIAL_STATE) {
        return link;
    }
    link - job.count.effects + Job::EFFECTS
}

// Numbers the links of all conditions and goals. Without timed facts they have their numbers.
pub fn number_links(job: Job, links: &mut [u16])
    requires { AllKnown job.count links.old }
    ensures { (s : List ℕ) → Numbered (view job s) links.old links.new }
{
    if job.count.timed == 0 {
        return;
    }
    let n = job.count.conditions as usize + job.count.goals as usize;
    for link in &mut links[..n] {
        *link = link_number(job, *link);
    }
}
