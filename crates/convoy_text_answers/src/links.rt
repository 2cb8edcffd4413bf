//! The answers for the links of a trace of real runs.

ghost use Rattle.std.specs.Prelude.{◌≡◌};
ghost use Rattle.std.specs.Option.{option_map};
ghost use Rattle.convoy_commands.specs.Replies.{SaysUnlessMemory, reply_of};
ghost use Rattle.convoy_text_answers.specs.LinkAnswers.{BesideSays, TraceRangesSay, TraceTableSays, beside_says, end_of_beside};

use convoy_commands::{Answer, Done, Fault};
use convoy_ranges::RangesAsked;
use convoy_scenario::{Key, Scenario, ScenarioFault, TimeUnit};
use convoy_tables::Format;
use convoy_trace_ranges::{beside_answer, trace_ranges_text, trace_table_text};
use std::alloc::Global;

/// The ranges of the links of a trace, as TOML ([`trace_ranges_text`]). The faults are `Fault::Trace` and `Fault::Memory`.
pub fn answer_trace_ranges(
    alloc: Global,
    rules: &RangesAsked,
    unit: TimeUnit,
    text: &[u8],
) -> Result<Answer, Fault>
    ensures { SaysUnlessMemory (TraceRangesSay rules.now unit) text.now (reply_of result) }
{
    let links = trace_ranges_text(alloc, rules, unit, text)?;
    Ok(Answer {
        done: Done::Fine,
        text: links.into_bytes(),
        known: None,
    })
}

/// The links of a trace, as a table ([`trace_table_text`]). The faults are the same.
pub fn answer_trace_table(
    alloc: Global,
    format: Format,
    unit: TimeUnit,
    text: &[u8],
) -> Result<Answer, Fault>
    ensures { SaysUnlessMemory (TraceTableSays format unit) text.now (reply_of result) }
{
    let text = trace_table_text(alloc, format, unit, text)?;
    Ok(Answer {
        done: Done::Fine,
        text,
        known: None,
    })
}

/// The links of a trace beside the ranges of the scenario that is wanted ([`beside_answer`]). It ends as `Done::Fine` where
/// each packet was in its range, and else as `Done::Departs`. The faults are the same; and, where no scenario is wanted,
/// that of a scenario text with nothing in it.
pub fn answer_beside(
    alloc: Global,
    wanted: Option<&Scenario>,
    format: Format,
    unit: Option<TimeUnit>,
    text: &[u8],
) -> Result<Answer, Fault>
    ensures { SaysUnlessMemory (beside_says (option_map (λ s. s.now) wanted.entry) format unit) text.now
        (reply_of result) }
{
    match wanted {
        Some(scenario) => answer_links(alloc, scenario, format, unit, text),
        None => Err(Fault::Scenario(ScenarioFault::Shape(Key::Delay))),
    }
}

/// The same where one is wanted.
fn answer_links(
    alloc: Global,
    scenario: &Scenario,
    format: Format,
    unit: Option<TimeUnit>,
    text: &[u8],
) -> Result<Answer, Fault>
    ensures { SaysUnlessMemory (BesideSays scenario.now format unit) text.now (reply_of result) }
{
    let (is_left, text) = beside_answer(alloc, format, unit, scenario, text)?;
    Ok(Answer {
        done: end_of_beside(is_left),
        text,
        known: None,
    })
}

/// How it ends.
fn end_of_beside(is_left: bool) -> Done
    ensures { result ≡ end_of_beside is_left }
{
    if is_left { Done::Departs } else { Done::Fine }
}
