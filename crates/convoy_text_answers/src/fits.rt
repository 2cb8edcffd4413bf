//! The answer for a trace of a real run.

ghost use Rattle.std.specs.Prelude.{◌≡◌, IsFalse, IsTrue, MatchResult};
ghost use Rattle.std.specs.Option.{option_map};
ghost use Rattle.convoy_draft.specs.declared.fault.Key.TheVariants.{Tick};
ghost use Rattle.convoy_draft.specs.declared.fault.ScenarioFault.TheVariants.{Shape};
ghost use Rattle.convoy_commands.specs.declared.fault.Fault.TheVariants as faults;
ghost use Rattle.convoy_commands.specs.Replies.{SaysUnlessMemory, reply_of};
ghost use Rattle.convoy_text_answers.specs.FitsAnswers.{TraceSays, end_of_fits, is_unmeasured, trace_says};

use convoy_commands::{Answer, Done, Fault};
use convoy_fits_told::{Skew, fits_answer};
use convoy_scenario::{Key, Scenario, ScenarioFault, TimeUnit};
use std::alloc::Global;

/// Whether the trace of a text is one of a run of the scenario that is wanted ([`fits_answer`]). It ends as `Done::Fine` where
/// it is, and else as `Done::Departs`. The faults are `Fault::Trace` and `Fault::Memory`; that of the shape of `tick`, where
/// the skew is a duration and it is not known how long a tick is; and, where no scenario is wanted, that of a scenario text
/// with nothing in it.
pub fn answer_fits(
    alloc: Global,
    wanted: Option<&Scenario>,
    skew: Skew,
    unit: Option<TimeUnit>,
    text: &[u8],
) -> Result<Answer, Fault>
    ensures { SaysUnlessMemory (trace_says (option_map (λ s. s.now) wanted.entry) skew unit) text.now (reply_of result) }
{
    match wanted {
        Some(scenario) => answer_trace(alloc, scenario, skew, unit, text),
        None => Err(Fault::Scenario(ScenarioFault::Shape(Key::Delay))),
    }
}

/// The same where one is wanted.
fn answer_trace(
    alloc: Global,
    scenario: &Scenario,
    skew: Skew,
    unit: Option<TimeUnit>,
    text: &[u8],
) -> Result<Answer, Fault>
    ensures { SaysUnlessMemory (TraceSays scenario.now skew unit) text.now (reply_of result) }
{
    let measured = measured_skew(scenario, skew)?;
    let (fits, text) = fits_answer(alloc, scenario, unit, measured, text)?;
    Ok(Answer {
        done: end_of_fits(fits),
        text,
        known: None,
    })
}

/// The skew; the fault of the shape of `tick`, where it is a duration and it is not known how long a tick is.
fn measured_skew(scenario: &Scenario, skew: Skew) -> Result<Skew, Fault>
    ensures { MatchResult result (λ measured. (measured ≡ skew) × IsFalse (is_unmeasured scenario.now skew))
        (λ fault. (fault ≡ faults.Scenario (Shape Tick)) × IsTrue (is_unmeasured scenario.now skew)) }
{
    match skew {
        Skew::Ticks(ticks) => Ok(Skew::Ticks(ticks)),
        Skew::Lasting(length) => match scenario.tick() {
            Some(_) => Ok(Skew::Lasting(length)),
            None => Err(Fault::Scenario(ScenarioFault::Shape(Key::Tick))),
        },
    }
}

/// How it ends.
fn end_of_fits(fits: bool) -> Done
    ensures { result ≡ end_of_fits fits }
{
    if fits { Done::Fine } else { Done::Departs }
}
