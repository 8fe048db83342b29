// Links: what supports each condition and each goal (orders, rule 1).
ghost use Rattle.points.specs.Timelines.{model};
ghost use Rattle.job_reader.specs.Seen.{seen};
ghost use Rattle.std.specs.Prelude.{◌≡◌, false, ◌&&◌, ◌+◌, ◌<◌, eqb, length};
ghost use Rattle.job.specs.Clocked.{clocked, ClockedForm};
ghost use Rattle.timeline.specs.Words.{step_span};
ghost use Rattle.points.specs.Points.{Wanting};
ghost use Rattle.links.specs.Linkable.{OfValid, Linkable, LinksFound};
ghost use Rattle.links.specs.Linking.{run_link, LinkIs, LinksPut, FromTo};

use crate::tie::{FIRSTS, Tie, own_place, tie_at};
use job_reader::reader::JobReader;
use order_file::layout::INITIAL_STATE;
use points::timelines::Timeline;
use timeline::walk::{Cursor, advance, last_run};
use timeline::word::{begin_at, number_of, step_of, tick_of, value_of};

// What supports the value of a fact, by its initial value, where its points begin, where the run of that value does, and the point of the
// run to which a tie goes.
fn run_link(points: &[u64], initial: u16, value: u16, low: usize, run: usize, at: usize) -> u16
    requires { (eqb run low && eqb initial value) ≡ false → at < length points.now }
    ensures { result ≡ run_link points.now initial value low run at }
{
    if (run == low) & (initial == value) {
        return INITIAL_STATE;
    }
    number_of(points[at])
}

// Puts the link of each condition of a fact: along the conditions and, beside them, its setters.
fn link_fact(timeline: Timeline, fact: u16, firsts: &mut [u16], links: &mut [u16])
    requires { Linkable (model timeline) timeline.points.now timeline.begins.now links.old × (fact < timeline.job.head.count.facts)
        × (length firsts.old ≡ step_span) }
    ensures { LinksPut (model timeline.entry) timeline.entry.points.now timeline.entry.begins.now
        (Wanting (model timeline.entry) fact) links.old links.new }
{
    let Timeline {
        job,
        points,
        begins,
        ..
    } = timeline;
    let initial = job.fact_initial(fact);
    let low = begin_at(begins, fact as usize);
    let high = begin_at(begins, fact as usize + 1);
    let group = job.head.count.facts as usize + fact as usize;
    let end = begin_at(begins, group + 1);
    let begin = begin_at(begins, group);
    let mut cursor = Cursor {
        place: low,
        run: low,
    };
    let mut tie = Tie {
        from: low,
        end: low,
    };
    for p in begin..end {
        let word = points[p];
        cursor = advance(points, low, high, tick_of(word), cursor);
        tie = tie_at(points, cursor.run, high, tie, firsts);
        let at = own_place(points, tie, firsts, step_of(word));
        let link = run_link(points, initial, value_of(word), low, cursor.run, at);
        links[number_of(word) as usize] = link;
    }
}

fn link_conditions(timeline: Timeline, links: &mut [u16])
    requires { Linkable (model timeline) timeline.points.now timeline.begins.now links.old }
    ensures { LinksPut (model timeline.entry) timeline.entry.points.now timeline.entry.begins.now
        (λ c. c < timeline.entry.job.head.count.conditions) links.old links.new }
{
    let Timeline { job, .. } = timeline;
    let mut firsts = [0u16; FIRSTS];
    for fact in 0..job.head.count.facts {
        link_fact(timeline, fact, &mut firsts, links);
    }
}

fn goal_link(timeline: Timeline, g: u16) -> u16
    requires { ClockedForm (model timeline) × OfValid (model timeline) timeline.points.now timeline.begins.now
        × (g < timeline.job.head.count.goals) }
    ensures { LinkIs (model timeline.entry) timeline.entry.points.now timeline.entry.begins.now (timeline.entry.job.head.count.conditions + g) result }
{
    let Timeline {
        job,
        points,
        begins,
        ..
    } = timeline;
    let goal = job.goal(g);
    let fact = goal.fact;
    let value = goal.value;
    let low = begin_at(begins, fact as usize);
    let high = begin_at(begins, fact as usize + 1);
    let run = last_run(points, low, high);
    run_link(points, job.fact_initial(fact), value, low, run, run)
}

fn link_goals(timeline: Timeline, links: &mut [u16])
    requires { Linkable (model timeline) timeline.points.now timeline.begins.now links.old }
    ensures { LinksPut (model timeline.entry) timeline.entry.points.now timeline.entry.begins.now
        (FromTo timeline.entry.job.head.count.conditions (timeline.entry.job.head.count.conditions + timeline.entry.job.head.count.goals)) links.old links.new }
{
    let Timeline { job, .. } = timeline;
    for g in 0..job.head.count.goals {
        links[(job.head.count.conditions + g) as usize] = goal_link(timeline, g);
    }
}

// Puts the link of each condition, then of each goal, of a valid schedule into a list.
pub fn find_links(timeline: Timeline, links: &mut [u16])
    requires { Linkable (model timeline) timeline.points.now timeline.begins.now links.old }
    ensures { LinksFound (model timeline.entry) timeline.entry.points.now timeline.entry.begins.now
        links.old links.new }
{
    link_conditions(timeline, links);
    link_goals(timeline, links);
}
