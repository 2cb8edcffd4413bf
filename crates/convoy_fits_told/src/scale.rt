//! How the times of a trace are told.

ghost use Rattle.std.specs.Prelude.{◌≡◌, ◌≤◌, ◌/◌, max, IfOk, string_bytes};
ghost use Rattle.convoy_draft.specs.declared.duration.TheConstants.{LONGEST_DURATION};
ghost use Rattle.convoy_fits_told.specs.Scales.{scale_by, told_in_fine_ticks, told_in_ticks, word_by};

use convoy_scenario::{AllocResult, Duration, TimeUnit};
use convoy_times::Measure;
use std::alloc::Global;

/// How the times of a trace are told, which are whole numbers of fine ticks.
#[derive(Clone, Copy)]
pub struct Scale {
    /// How numbers of ticks are told.
    pub ticks: Measure,
    /// How numbers of fine ticks are.
    pub fine: Measure,
    /// The unit, where the length of a tick is known.
    pub unit: Option<TimeUnit>,
}

impl Scale {
    /// The scale of a trace whose clock has that tick, in nanoseconds, and that unit; a tick has so many fine ticks.
    pub(crate) fn of(tick: u64, unit: Option<TimeUnit>, factor: u16) -> Scale
        requires { tick ≤ LONGEST_DURATION }
        ensures { result ≡ scale_by (record { tick = tick; unit = unit }) factor }
    {
        let told = unit.unwrap_or(TimeUnit::Seconds);
        Scale {
            ticks: Measure {
                tick: lasting(tick),
                unit: told,
            },
            fine: Measure {
                tick: lasting(part_of(tick, factor)),
                unit: told,
            },
            unit,
        }
    }

    /// The word after a number.
    fn word(&self) -> &'static str
        ensures { result.now ≡ word_by self.now.unit }
    {
        match self.unit {
            Some(unit) => unit.word(),
            None => "ticks",
        }
    }

    /// So many ticks. Fails where memory runs out, and else never.
    #[tactic(auto, unfolding(crate::specs::Scales::told_in_ticks))]
    pub(crate) fn ticks_text(&self, alloc: Global, ticks: u32) -> AllocResult<String>
        ensures { IfOk result (λ text. string_bytes text ≡ told_in_ticks self.now ticks) }
    {
        let number = self.ticks.text(alloc, ticks)?;
        let word = self.word();
        format!(in alloc; "{number} {word}")
    }

    /// So many fine ticks. Fails where memory runs out, and else never.
    #[tactic(auto, unfolding(crate::specs::Scales::told_in_fine_ticks))]
    pub(crate) fn fine_text(&self, alloc: Global, ticks: u32) -> AllocResult<String>
        ensures { IfOk result (λ text. string_bytes text ≡ told_in_fine_ticks self.now ticks) }
    {
        let number = self.fine.text(alloc, ticks)?;
        let word = self.word();
        format!(in alloc; "{number} {word}")
    }
}

/// One of so many equal parts.
fn part_of(nanoseconds: u64, factor: u16) -> u64
    requires { nanoseconds ≤ LONGEST_DURATION }
    ensures value { result ≡ nanoseconds / max 1 factor }
    ensures bounded { result ≤ LONGEST_DURATION }
{
    nanoseconds / u64::from(factor.max(1))
}

/// The duration of so many nanoseconds.
fn lasting(nanoseconds: u64) -> Duration
    requires { nanoseconds ≤ LONGEST_DURATION }
    ensures { result ≡ nanoseconds }
{
    match Duration::from_nanoseconds(nanoseconds) {
        Some(duration) => duration,
        None => unreachable!(),
    }
}
