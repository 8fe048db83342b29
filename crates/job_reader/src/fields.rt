// A field of a record. A record that is not there reads as what stands in its place, and bytes past the end as 0, so no reader of a field
// asks anything of its caller.
ghost use Rattle.std.specs.Prelude.{◌≡◌, ◌<◌};
ghost use Rattle.job_reader.specs.Seen.{seen};
ghost use Rattle.little_endian.specs.Bytes.{u32_values};

use crate::reader::JobReader;
use job::layout::{CONDITION, EFFECT, FACT, GOAL, LEVEL, NEED, STEP, TIMED, USE, WIDTHS};

impl<'a> JobReader<'a> {
    pub fn fact_initial(self, k: u16) -> u16
        ensures { result ≡ (seen self.entry).initial k }
    {
        little_endian::byte_at(
            self.bytes,
            self.head.at.facts as usize + WIDTHS[FACT] * k as usize,
        ) as u16
    }

    pub fn level_initial(self, k: u16) -> usize
        ensures { (result ≡ (seen self.entry).level_initial k) × (result < u32_values) }
    {
        little_endian::biased_at(
            self.bytes,
            self.head.at.levels as usize + WIDTHS[LEVEL] * k as usize,
        )
    }

    pub fn level_least(self, k: u16) -> usize
        ensures { (result ≡ (seen self.entry).level_least k) × (result < u32_values) }
    {
        little_endian::biased_at(
            self.bytes,
            self.head.at.levels as usize + WIDTHS[LEVEL] * k as usize + 4,
        )
    }

    pub fn level_most(self, k: u16) -> usize
        ensures { (result ≡ (seen self.entry).level_most k) × (result < u32_values) }
    {
        little_endian::biased_at(
            self.bytes,
            self.head.at.levels as usize + WIDTHS[LEVEL] * k as usize + 8,
        )
    }

    pub fn step_start(self, k: u16) -> usize
        ensures { (result ≡ (seen self.entry).start k) × (result < u32_values) }
    {
        little_endian::u32_at(
            self.bytes,
            self.head.at.steps as usize + WIDTHS[STEP] * k as usize,
        )
    }

    pub fn step_length(self, k: u16) -> usize
        ensures { (result ≡ (seen self.entry).step_length k) × (result < u32_values) }
    {
        little_endian::u32_at(
            self.bytes,
            self.head.at.steps as usize + WIDTHS[STEP] * k as usize + 4,
        )
    }

    pub fn step_fixed(self, k: u16) -> u16
        ensures { result ≡ (seen self.entry).fixed k }
    {
        little_endian::u16_at(
            self.bytes,
            self.head.at.steps as usize + WIDTHS[STEP] * k as usize + 8,
        ) as u16
    }

    pub fn condition_step(self, k: u16) -> u16
        ensures { result ≡ (seen self.entry).condition_step k }
    {
        little_endian::u16_at(
            self.bytes,
            self.head.at.conditions as usize + WIDTHS[CONDITION] * k as usize,
        ) as u16
    }

    pub fn condition_fact(self, k: u16) -> u16
        ensures { result ≡ (seen self.entry).condition_fact k }
    {
        little_endian::u16_at(
            self.bytes,
            self.head.at.conditions as usize + WIDTHS[CONDITION] * k as usize + 2,
        ) as u16
    }

    pub fn condition_from(self, k: u16) -> usize
        ensures { (result ≡ (seen self.entry).condition_from k) × (result < u32_values) }
    {
        little_endian::u32_at(
            self.bytes,
            self.head.at.conditions as usize + WIDTHS[CONDITION] * k as usize + 4,
        )
    }

    pub fn condition_to(self, k: u16) -> usize
        ensures { (result ≡ (seen self.entry).condition_to k) × (result < u32_values) }
    {
        little_endian::u32_at(
            self.bytes,
            self.head.at.conditions as usize + WIDTHS[CONDITION] * k as usize + 8,
        )
    }

    pub fn condition_value(self, k: u16) -> u16
        ensures { result ≡ (seen self.entry).condition_value k }
    {
        little_endian::u16_at(
            self.bytes,
            self.head.at.conditions as usize + WIDTHS[CONDITION] * k as usize + 12,
        ) as u16
    }

    pub fn effect_step(self, k: u16) -> u16
        ensures { result ≡ (seen self.entry).effect_step k }
    {
        little_endian::u16_at(
            self.bytes,
            self.head.at.effects as usize + WIDTHS[EFFECT] * k as usize,
        ) as u16
    }

    pub fn effect_fact(self, k: u16) -> u16
        ensures { result ≡ (seen self.entry).effect_fact k }
    {
        little_endian::u16_at(
            self.bytes,
            self.head.at.effects as usize + WIDTHS[EFFECT] * k as usize + 2,
        ) as u16
    }

    pub fn effect_at(self, k: u16) -> usize
        ensures { (result ≡ (seen self.entry).effect_at k) × (result < u32_values) }
    {
        little_endian::u32_at(
            self.bytes,
            self.head.at.effects as usize + WIDTHS[EFFECT] * k as usize + 4,
        )
    }

    pub fn effect_value(self, k: u16) -> u16
        ensures { result ≡ (seen self.entry).effect_value k }
    {
        little_endian::u16_at(
            self.bytes,
            self.head.at.effects as usize + WIDTHS[EFFECT] * k as usize + 8,
        ) as u16
    }

    pub fn use_step(self, k: u16) -> u16
        ensures { result ≡ (seen self.entry).use_step k }
    {
        little_endian::u16_at(
            self.bytes,
            self.head.at.uses as usize + WIDTHS[USE] * k as usize,
        ) as u16
    }

    pub fn use_level(self, k: u16) -> u16
        ensures { result ≡ (seen self.entry).use_level k }
    {
        little_endian::u16_at(
            self.bytes,
            self.head.at.uses as usize + WIDTHS[USE] * k as usize + 2,
        ) as u16
    }

    pub fn use_at(self, k: u16) -> usize
        ensures { (result ≡ (seen self.entry).use_at k) × (result < u32_values) }
    {
        little_endian::u32_at(
            self.bytes,
            self.head.at.uses as usize + WIDTHS[USE] * k as usize + 4,
        )
    }

    pub fn use_amount(self, k: u16) -> usize
        ensures { (result ≡ (seen self.entry).use_amount k) × (result < u32_values) }
    {
        little_endian::biased_at(
            self.bytes,
            self.head.at.uses as usize + WIDTHS[USE] * k as usize + 8,
        )
    }

    pub fn goal_fact(self, k: u16) -> u16
        ensures { result ≡ (seen self.entry).goal_fact k }
    {
        little_endian::u16_at(
            self.bytes,
            self.head.at.goals as usize + WIDTHS[GOAL] * k as usize,
        ) as u16
    }

    pub fn goal_value(self, k: u16) -> u16
        ensures { result ≡ (seen self.entry).goal_value k }
    {
        little_endian::u16_at(
            self.bytes,
            self.head.at.goals as usize + WIDTHS[GOAL] * k as usize + 2,
        ) as u16
    }

    pub fn goal_deadline(self, k: u16) -> usize
        ensures { (result ≡ (seen self.entry).goal_deadline k) × (result < u32_values) }
    {
        little_endian::u32_at(
            self.bytes,
            self.head.at.goals as usize + WIDTHS[GOAL] * k as usize + 4,
        )
    }

    pub fn timed_fact(self, k: u16) -> u16
        ensures { result ≡ (seen self.entry).timed_fact k }
    {
        little_endian::u16_at(
            self.bytes,
            self.head.at.timed as usize + WIDTHS[TIMED] * k as usize,
        ) as u16
    }

    pub fn timed_value(self, k: u16) -> u16
        ensures { result ≡ (seen self.entry).timed_value k }
    {
        little_endian::u16_at(
            self.bytes,
            self.head.at.timed as usize + WIDTHS[TIMED] * k as usize + 6,
        ) as u16
    }

    pub fn need_step(self, k: u16) -> u16
        ensures { result ≡ (seen self.entry).need_step k }
    {
        little_endian::u16_at(
            self.bytes,
            self.head.at.needs as usize + WIDTHS[NEED] * k as usize,
        ) as u16
    }

    pub fn need_level(self, k: u16) -> u16
        ensures { result ≡ (seen self.entry).need_level k }
    {
        little_endian::u16_at(
            self.bytes,
            self.head.at.needs as usize + WIDTHS[NEED] * k as usize + 2,
        ) as u16
    }
}
