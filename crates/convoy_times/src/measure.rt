ghost use Rattle.std.specs.Prelude.{◌≡◌, ◌*◌, ◌++◌, IfOk, OnOk, string_bytes};
ghost use Rattle.std.specs.List.{flat_map};
ghost use Rattle.convoy_lines.specs.Texts.{spaced};
ghost use Rattle.convoy_times.specs.Measures.{measure_by, told_in_unit, told_ticks};

use super::decimals::{greatest_unit, push_decimal};
use convoy_draft::AllocResult;
use convoy_lines::push_further_word;
use convoy_scenario::{Duration, Scenario, TimeUnit};
use std::alloc::{AllocError, Global};

/// How the times of a scenario are told.
#[derive(Clone, Copy, PartialEq, Eq)]
pub struct Measure {
    /// How long a tick lasts.
    pub tick: Duration,
    /// The unit in which times are told.
    pub unit: TimeUnit,
}

impl Measure {
    /// How the times of a scenario are told: in the unit that is asked for, or else in that in which its text tells D
    /// (`TimeUnit::of_text`), or else in the greatest unit of which D is a whole number. None where it is not known how
    /// long a tick lasts.
    pub fn of(
        scenario: &Scenario,
        asked: Option<TimeUnit>,
        written: Option<TimeUnit>,
    ) -> Option<Measure>
        ensures { result ≡ measure_by asked written scenario.now }
    {
        let tick = scenario.tick()?;
        let unit = match asked.or(written) {
            Some(unit) => unit,
            None => greatest_unit(u128::from(scenario.delay()) * u128::from(tick.nanoseconds())),
        };
        Some(Measure { tick, unit })
    }

    /// How many nanoseconds so many ticks have.
    fn nanoseconds(self, ticks: u32) -> u128
        ensures { result ≡ ticks * self.tick }
    {
        u128::from(ticks) * u128::from(self.tick.nanoseconds())
    }

    /// Appends so many ticks in the unit, exactly, as `193.5`, without the word for the unit. Fails where memory runs
    /// out, and else never; a front may have been appended then.
    #[tactic(auto, unfolding(crate::specs::Measures::told_ticks))]
    pub fn push(self, ticks: u32, out: &mut Vec<u8>) -> Result<(), AllocError>
        ensures { OnOk result (out.new.items ≡ out.old.items ++ told_ticks self ticks) }
    {
        push_decimal(self.unit, self.nanoseconds(ticks), out)
    }

    /// Appends numbers of ticks in the unit, and the word for the unit, each after a space. Where memory runs out, a front
    /// may have been appended.
    #[tactic(auto, using(std::proofs::lemmas::List::append_assoc))]
    fn push_words(&self, ticks: &[u32], out: &mut Vec<u8>) -> Result<(), AllocError>
        ensures { OnOk result (out.new.items
            ≡ out.old.items ++ flat_map spaced (told_in_unit (Some self.now) ticks.now)) }
    {
        for number in ticks {
            out.push(b' ')?;
            self.push(*number, out)?;
        }
        push_further_word(out, self.unit.word())
    }

    /// The same as a text of its own. Fails where memory runs out, and else never.
    #[tactic(auto, unfolding(crate::specs::Measures::told_ticks))]
    pub fn text(self, alloc: Global, ticks: u32) -> AllocResult<String>
        ensures { IfOk result (λ text. string_bytes text ≡ told_ticks self ticks) }
    {
        let mut bytes = Vec::new(alloc);
        push_decimal(self.unit, self.nanoseconds(ticks), &mut bytes)?;
        match String::from_utf8(bytes) {
            Ok(text) => Ok(text),
            Err(_) => unreachable!(),
        }
    }
}

/// Appends numbers of ticks in the unit of the measure, and the word for the unit, each after a space; nothing where
/// there is no measure. Fails where memory runs out, and else never; a front may have been appended then.
pub fn push_told(
    measure: Option<Measure>,
    ticks: &[u32],
    out: &mut Vec<u8>,
) -> Result<(), AllocError>
    ensures { OnOk result (out.new.items
        ≡ out.old.items ++ flat_map spaced (told_in_unit measure ticks.now)) }
{
    match measure {
        Some(measure) => measure.push_words(ticks, out),
        None => Ok(()),
    }
}
