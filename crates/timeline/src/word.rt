// A point as one number: its group, tick, number, value and step, from the highest bits to the lowest.
ghost use Rattle.std.specs.Prelude.{◌≡◌, ◌<◌, length, get_or};
ghost use Rattle.timeline.specs.Words.{word_of, word_step, word_value, word_number, word_tick, word_group};
ghost use Rattle.timeline.specs.Words.{step_span, value_span, number_span, tick_span, group_span};

pub const GROUP_UNIT: u64 = 2251799813685248;

pub const TICK_UNIT: u64 = 262144;

pub const NUMBER_UNIT: u64 = 256;

pub const VALUE_UNIT: u64 = 128;

pub const TICK_SPAN: u64 = 8589934592;

pub const NUMBER_SPAN: u64 = 1024;

pub const VALUE_SPAN: u64 = 2;

pub const STEP_SPAN: u64 = 128;

pub fn word_of(group: usize, tick: usize, number: u16, value: u16, step: u16) -> u64
    requires { (group < group_span) × (tick < tick_span) × (number < number_span) × (value < value_span) × (step < step_span) }
    ensures { result ≡ word_of group tick number value step }
{
    group as u64 * GROUP_UNIT
        + tick as u64 * TICK_UNIT
        + number as u64 * NUMBER_UNIT
        + value as u64 * VALUE_UNIT
        + step as u64
}

pub fn step_of(word: u64) -> u16
    ensures { (result ≡ word_step word) × (result < step_span) }
{
    (word % STEP_SPAN) as u16
}

pub fn value_of(word: u64) -> u16
    ensures { (result ≡ word_value word) × (result < value_span) }
{
    (word / VALUE_UNIT % VALUE_SPAN) as u16
}

pub fn number_of(word: u64) -> u16
    ensures { (result ≡ word_number word) × (result < number_span) }
{
    (word / NUMBER_UNIT % NUMBER_SPAN) as u16
}

pub fn tick_of(word: u64) -> usize
    ensures { (result ≡ word_tick word) × (result < tick_span) }
{
    (word / TICK_UNIT % TICK_SPAN) as usize
}

pub fn group_of(word: u64) -> usize
    ensures { result ≡ word_group word }
{
    (word / GROUP_UNIT) as usize
}

// Where a group begins in the list of points; the next one begins where it ends.
pub fn begin_at(begins: &[u16], group: usize) -> usize
    requires { group < length begins.now }
    ensures { (result ≡ get_or begins.now group 0) × (result < 65536) }
{
    usize::from(begins[group])
}
