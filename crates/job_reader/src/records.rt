// Whole records: levels, steps and goals of any bytes; conditions, effects, uses, timed facts and needs that lie within the bytes, without a
// test for room.
ghost use Rattle.std.specs.Prelude.{◌≡◌, ◌<◌};
ghost use Rattle.job.specs.Model.{level_of, step_of, goal_of, condition_of, effect_of, use_of, timed_of, need_of};
ghost use Rattle.job_reader.specs.Seen.{seen, IsLaid};
ghost use Rattle.little_endian.specs.Bytes.{u32_values};

use crate::reader::JobReader;
use job::layout::{CONDITION, EFFECT, NEED, STEP, TIMED, USE, WIDTHS};
use job::records::{Condition, Effect, Goal, Level, Need, Step, TimedFact, Use};
use little_endian::{biased_within, u16_within, u32_within};

impl<'a> JobReader<'a> {
    pub fn level(self, k: u16) -> Level
        ensures { result ≡ level_of (seen self.entry) k }
    {
        let initial = self.level_initial(k);
        let least = self.level_least(k);
        let most = self.level_most(k);
        Level {
            initial,
            least,
            most,
        }
    }

    pub fn step(self, k: u16) -> Step
        ensures { result ≡ step_of (seen self.entry) k }
    {
        let start = self.step_start(k);
        let length = self.step_length(k);
        let fixed = self.step_fixed(k);
        Step {
            start,
            length,
            fixed,
        }
    }

    pub fn goal(self, k: u16) -> Goal
        ensures { result ≡ goal_of (seen self.entry) k }
    {
        let deadline = self.goal_deadline(k);
        let fact = self.goal_fact(k);
        let value = self.goal_value(k);
        Goal {
            fact,
            value,
            deadline,
        }
    }

    pub fn length_within(self, k: u16) -> usize
        requires { IsLaid self × (k < self.head.count.steps) }
        ensures { (result ≡ (seen self.entry).step_length k) × (result < u32_values) }
    {
        u32_within(
            self.bytes,
            self.head.at.steps as usize + WIDTHS[STEP] * k as usize + 4,
        )
    }

    pub fn condition(self, k: u16) -> Condition
        requires { IsLaid self × (k < self.head.count.conditions) }
        ensures { result ≡ condition_of (seen self.entry) k }
    {
        let at = self.head.at.conditions as usize + WIDTHS[CONDITION] * k as usize;
        Condition {
            step: u16_within(self.bytes, at) as u16,
            fact: u16_within(self.bytes, at + 2) as u16,
            from: u32_within(self.bytes, at + 4),
            to: u32_within(self.bytes, at + 8),
            value: u16_within(self.bytes, at + 12) as u16,
        }
    }

    pub fn effect(self, k: u16) -> Effect
        requires { IsLaid self × (k < self.head.count.effects) }
        ensures { result ≡ effect_of (seen self.entry) k }
    {
        let at = self.head.at.effects as usize + WIDTHS[EFFECT] * k as usize;
        Effect {
            step: u16_within(self.bytes, at) as u16,
            fact: u16_within(self.bytes, at + 2) as u16,
            at: u32_within(self.bytes, at + 4),
            value: u16_within(self.bytes, at + 8) as u16,
        }
    }

    // `use` is a word of the language.
    pub fn usage(self, k: u16) -> Use
        requires { IsLaid self × (k < self.head.count.uses) }
        ensures { result ≡ use_of (seen self.entry) k }
    {
        let at = self.head.at.uses as usize + WIDTHS[USE] * k as usize;
        Use {
            step: u16_within(self.bytes, at) as u16,
            level: u16_within(self.bytes, at + 2) as u16,
            at: u32_within(self.bytes, at + 4),
            amount: biased_within(self.bytes, at + 8),
        }
    }

    pub fn timed(self, k: u16) -> TimedFact
        requires { IsLaid self × (k < self.head.count.timed) }
        ensures { result ≡ timed_of (seen self.entry) k }
    {
        let at = self.head.at.timed as usize + WIDTHS[TIMED] * k as usize;
        TimedFact {
            fact: u16_within(self.bytes, at) as u16,
            tick: u32_within(self.bytes, at + 2),
            value: u16_within(self.bytes, at + 6) as u16,
        }
    }

    pub fn need(self, k: u16) -> Need
        requires { IsLaid self × (k < self.head.count.needs) }
        ensures { result ≡ need_of (seen self.entry) k }
    {
        let at = self.head.at.needs as usize + WIDTHS[NEED] * k as usize;
        Need {
            step: u16_within(self.bytes, at) as u16,
            level: u16_within(self.bytes, at + 2) as u16,
            at: u32_within(self.bytes, at + 4),
            least: biased_within(self.bytes, at + 8),
        }
    }
}
