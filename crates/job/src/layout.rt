// The job file's header: counts, limits, and where the tables lie.
ghost use Rattle.std.specs.Prelude.{◌+◌, ◌*◌, ◌^◌, ◌≤◌, ◌≡◌, cond, eqb};
ghost use Rattle.little_endian.specs.Bytes.{u16_at};
ghost use Rattle.job.specs.Layout.{needs_edition, header_width, longest_header, serial_mark, counts_of, positions_of, job_of, count_too_high};

use little_endian::SIGN_BIAS;

// The tables, in their order in the file.
#[derive(Clone, Copy)]
pub enum Table {
    Facts,
    Levels,
    Steps,
    Conditions,
    Effects,
    Uses,
    Goals,
    TimedFacts,
    Needs,
}

// How many records each table has.
#[derive(Clone, Copy)]
pub struct Counts {
    pub facts: u16,
    pub levels: u16,
    pub steps: u16,
    pub conditions: u16,
    pub effects: u16,
    pub uses: u16,
    pub goals: u16,
    pub timed: u16,
    pub needs: u16,
}

// Where each table starts, and where the file ends.
#[derive(Clone, Copy)]
pub struct Positions {
    pub facts: u32,
    pub levels: u32,
    pub steps: u32,
    pub conditions: u32,
    pub effects: u32,
    pub uses: u32,
    pub goals: u32,
    pub timed: u32,
    pub needs: u32,
    pub end: u32,
}

// What the header says of a job, and where that puts its tables.
#[derive(Clone, Copy)]
pub struct Job {
    pub edition: u16,
    pub count: Counts,
    pub at: Positions,
}

// The editions that are read: from 1 to this.
pub const LATEST_EDITION: u16 = 3;

// The first edition that has timed facts, and the one that has needs.
pub const TIMED_EDITION: u16 = 2;

pub const NEEDS_EDITION: u16 = 3;

// The bytes of the shortest header, of one with an offset for timed facts, and of the longest, which also has needs.
pub const SHORTEST_HEADER: usize = 48;

pub const TIMED_HEADER: usize = 52;

pub const LONGEST_HEADER: usize = 60;

// Record widths in bytes, in the tables' order.
pub const WIDTHS: [usize; 9] = [1, 12, 10, 14, 10, 12, 8, 8, 12];

pub const FACT: usize = 0;

pub const LEVEL: usize = 1;

pub const STEP: usize = 2;

pub const CONDITION: usize = 3;

pub const EFFECT: usize = 4;

pub const USE: usize = 5;

pub const GOAL: usize = 6;

pub const TIMED: usize = 7;

pub const NEED: usize = 8;

// A step's highest start and length, a goal's highest deadline, and a timed fact's highest tick.
pub const LAST_START: usize = 1000000;

pub const LONGEST: usize = 100000;

pub const LAST_DEADLINE: usize = 1100000;

pub const LAST_TIMED: usize = 1100000;

// The bounds of a level's numbers and of a use's amount, each plus the bias of a signed number.
pub const LOWEST_LEVEL: usize = SIGN_BIAS - 1000000000;

pub const HIGHEST_LEVEL: usize = SIGN_BIAS + 1000000000;

pub const LOWEST_AMOUNT: usize = SIGN_BIAS - 1000000;

pub const HIGHEST_AMOUNT: usize = SIGN_BIAS + 1000000;

impl Job {
    // The highest counts.
    pub const FACTS: u16 = 256;

    pub const LEVELS: u16 = 16;

    pub const STEPS: u16 = 64;

    pub const CONDITIONS: u16 = 512;

    pub const EFFECTS: u16 = 512;

    pub const USES: u16 = 256;

    pub const GOALS: u16 = 32;

    pub const TIMED: u16 = 64;

    pub const NEEDS: u16 = 128;

    pub fn read(s: &[u8]) -> Job
        ensures { result ≡ job_of s.now }
    {
        let edition = little_endian::u16_at(s, 0) as u16;
        let count = Counts::read(s);
        let at = Positions::of(header_width(edition), count);
        Job { edition, count, at }
    }
}

// The serial mark. Refusal 3 looks at it, and the printed sheet tells of it; no job is read otherwise for it.
pub fn serial_mark(s: &[u8]) -> u16
    ensures { result ≡ serial_mark s.now }
{
    little_endian::u16_at(s, 2) as u16
}

// The bytes of an edition's header.
pub fn header_width(edition: u16) -> usize
    ensures { (result ≡ header_width edition) × (result ≤ longest_header) }
{
    if edition == NEEDS_EDITION {
        return LONGEST_HEADER;
    }
    if edition == TIMED_EDITION {
        TIMED_HEADER
    } else {
        SHORTEST_HEADER
    }
}

// Only an edition with needs counts them: in an earlier one a table stands there.
fn needs_counted(s: &[u8]) -> u16
    ensures { result ≡ cond (eqb (u16_at s.now 0) needs_edition) (u16_at s.now 52) 0 }
{
    let has_needs = little_endian::u16_at(s, 0) as u16 == NEEDS_EDITION;
    if has_needs {
        little_endian::u16_at(s, 52) as u16
    } else {
        0
    }
}

impl Counts {
    // The header counts goals before conditions, and timed facts and needs last.
    pub fn read(s: &[u8]) -> Counts
        ensures { result ≡ counts_of s.now }
    {
        Counts {
            facts: little_endian::u16_at(s, 4) as u16,
            levels: little_endian::u16_at(s, 6) as u16,
            steps: little_endian::u16_at(s, 8) as u16,
            goals: little_endian::u16_at(s, 10) as u16,
            conditions: little_endian::u16_at(s, 12) as u16,
            effects: little_endian::u16_at(s, 14) as u16,
            uses: little_endian::u16_at(s, 16) as u16,
            timed: little_endian::u16_at(s, 18) as u16,
            needs: needs_counted(s),
        }
    }
}

impl Positions {
    // The tables follow the header without gaps.
    fn of(header: usize, count: Counts) -> Positions
        requires { header ≤ longest_header }
        ensures { result ≡ positions_of header count }
    {
        let facts = header as u32;
        let levels = table_end(facts, WIDTHS[FACT], count.facts);
        let steps = table_end(levels, WIDTHS[LEVEL], count.levels);
        let conditions = table_end(steps, WIDTHS[STEP], count.steps);
        let effects = table_end(conditions, WIDTHS[CONDITION], count.conditions);
        let uses = table_end(effects, WIDTHS[EFFECT], count.effects);
        let goals = table_end(uses, WIDTHS[USE], count.uses);
        let timed = table_end(goals, WIDTHS[GOAL], count.goals);
        let needs = table_end(timed, WIDTHS[TIMED], count.timed);
        let end = table_end(needs, WIDTHS[NEED], count.needs);
        Positions {
            facts,
            levels,
            steps,
            conditions,
            effects,
            uses,
            goals,
            timed,
            needs,
            end,
        }
    }
}

// Where a table of `count` records ends. Any header's tables end below 2^24, so no sum overflows.
fn table_end(at: u32, width: usize, count: u16) -> u32
    requires { (at ≤ 2 ^ 24) × (width ≤ 14) }
    ensures value { result ≡ at + width * count }
    ensures upper_bound { result ≤ at + 2 ^ 20 }
{
    (at as usize + width * count as usize) as u32
}

// Refusal 4: a count exceeds its highest.
pub fn count_too_high(count: Counts) -> bool
    ensures { result ≡ count_too_high count }
{
    (Job::FACTS < count.facts)
        | (Job::LEVELS < count.levels)
        | (Job::STEPS < count.steps)
        | (Job::CONDITIONS < count.conditions)
        | (Job::EFFECTS < count.effects)
        | (Job::USES < count.uses)
        | (Job::GOALS < count.goals)
        | (Job::TIMED < count.timed)
        | (Job::NEEDS < count.needs)
}
