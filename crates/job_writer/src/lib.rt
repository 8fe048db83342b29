// Writing a job file's parts into a caller's bytes: the header of edition 1, and a record of each of its tables.
#![tactic(auto)]

ghost use Rattle.std.specs.Prelude.{◌≡◌, ◌+◌, ◌≤◌, length, take, drop};
ghost use Rattle.std.proofs.lemmas.List.Edits.{sets};
ghost use Rattle.little_endian.specs.Bytes.{u16_bytes, u32_bytes};
ghost use Rattle.job.specs.Layout.{level_width, step_width, condition_width, effect_width, use_width, goal_width};
ghost use Rattle.job_encoding.specs.Encode.{bits, level_row, step_row, condition_row, effect_row, use_row, goal_row, header_bytes};

use job::layout::{CONDITION, Counts, EFFECT, FACT, LEVEL, SHORTEST_HEADER, STEP, USE, WIDTHS};
use job::records::{Condition, Effect, Goal, Level, Step, Use};
use little_endian::{SIGN_BIAS, U32_VALUES, put_u16, put_u16_within, put_u32, put_u32_within};

// Puts the header of edition 1, without a serial mark.
pub fn write_header(count: Counts, out: &mut [u8])
    ensures { out.new ≡ sets out.old 0 (header_bytes 1 count) }
{
    put_u16(0, 1, out);
    put_u16(2, 0, out);
    write_counts(count, out);
    write_offsets(count, out);
}

// Puts a count.
fn put_count(at: usize, n: u16, out: &mut [u8])
    ensures { out.new ≡ sets out.old at (u16_bytes n) }
{
    put_u16(at, n as usize, out);
}

// Puts the counts, goals before conditions.
fn write_counts(count: Counts, out: &mut [u8])
    ensures { out.new ≡ sets out.old 4 (take 16 (drop 4 (header_bytes 1 count))) }
{
    put_count(4, count.facts, out);
    put_count(6, count.levels, out);
    put_count(8, count.steps, out);
    put_count(10, count.goals, out);
    put_count(12, count.conditions, out);
    put_count(14, count.effects, out);
    put_count(16, count.uses, out);
    put_count(18, count.timed, out);
}

// Puts where the tables begin: they follow the header without gaps.
fn write_offsets(count: Counts, out: &mut [u8])
    ensures { out.new ≡ sets out.old 20 (drop 20 (header_bytes 1 count)) }
{
    let levels = SHORTEST_HEADER + WIDTHS[FACT] * count.facts as usize;
    let steps = levels + WIDTHS[LEVEL] * count.levels as usize;
    let conditions = steps + WIDTHS[STEP] * count.steps as usize;
    let effects = conditions + WIDTHS[CONDITION] * count.conditions as usize;
    let uses = effects + WIDTHS[EFFECT] * count.effects as usize;
    let goals = uses + WIDTHS[USE] * count.uses as usize;
    put_u32(20, SHORTEST_HEADER, out);
    put_u32(24, levels, out);
    put_u32(28, steps, out);
    put_u32(32, conditions, out);
    put_u32(36, effects, out);
    put_u32(40, uses, out);
    put_u32(44, goals, out);
}

// Puts an i32 that is given plus its bias, within the bytes.
fn put_biased_within(at: usize, biased: usize, out: &mut [u8])
    requires { at + 4 ≤ length out.old }
    ensures { out.new ≡ sets out.old at (u32_bytes (bits biased)) }
{
    put_u32_within(at, (biased % U32_VALUES + SIGN_BIAS) % U32_VALUES, out);
}

// Put a record within the bytes, a function a table.
pub fn write_level(at: usize, level: Level, out: &mut [u8])
    requires { at + level_width ≤ length out.old }
    ensures { out.new ≡ sets out.old at (level_row level) }
{
    put_biased_within(at, level.initial, out);
    put_biased_within(at + 4, level.least, out);
    put_biased_within(at + 8, level.most, out);
}

pub fn write_step(at: usize, step: Step, out: &mut [u8])
    requires { at + step_width ≤ length out.old }
    ensures { out.new ≡ sets out.old at (step_row step) }
{
    put_u32_within(at, step.start, out);
    put_u32_within(at + 4, step.length, out);
    put_u16_within(at + 8, step.fixed as usize, out);
}

pub fn write_condition(at: usize, condition: Condition, out: &mut [u8])
    requires { at + condition_width ≤ length out.old }
    ensures { out.new ≡ sets out.old at (condition_row condition) }
{
    put_u16_within(at, condition.step as usize, out);
    put_u16_within(at + 2, condition.fact as usize, out);
    put_u32_within(at + 4, condition.from, out);
    put_u32_within(at + 8, condition.to, out);
    put_u16_within(at + 12, condition.value as usize, out);
}

pub fn write_effect(at: usize, effect: Effect, out: &mut [u8])
    requires { at + effect_width ≤ length out.old }
    ensures { out.new ≡ sets out.old at (effect_row effect) }
{
    put_u16_within(at, effect.step as usize, out);
    put_u16_within(at + 2, effect.fact as usize, out);
    put_u32_within(at + 4, effect.at, out);
    put_u16_within(at + 8, effect.value as usize, out);
}

pub fn write_use(at: usize, usage: Use, out: &mut [u8])
    requires { at + use_width ≤ length out.old }
    ensures { out.new ≡ sets out.old at (use_row usage) }
{
    put_u16_within(at, usage.step as usize, out);
    put_u16_within(at + 2, usage.level as usize, out);
    put_u32_within(at + 4, usage.at, out);
    put_biased_within(at + 8, usage.amount, out);
}

pub fn write_goal(at: usize, goal: Goal, out: &mut [u8])
    requires { at + goal_width ≤ length out.old }
    ensures { out.new ≡ sets out.old at (goal_row goal) }
{
    put_u16_within(at, goal.fact as usize, out);
    put_u16_within(at + 2, goal.value as usize, out);
    put_u32_within(at + 4, goal.deadline, out);
}
