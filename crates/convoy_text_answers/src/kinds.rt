//! Answers for kinds of messages.

ghost use Rattle.std.specs.Prelude.{◌≡◌};
ghost use Rattle.convoy_commands.specs.Replies.{SaysUnlessMemory, reply_of};
ghost use Rattle.convoy_text_answers.specs.KindAnswers.{KindTableSays, WorstKindSays, end_of_worst};

use convoy_commands::{Answer, Done, Fault};
use convoy_kinds_told::{kinds_answer, worst_kind_answer};
use convoy_scenario::TimeUnit;
use convoy_tables::Format;
use std::alloc::Global;

/// The ceilings of the kinds of messages of a text, as a table ([`kinds_answer`]). The faults are `Fault::Scenario`,
/// `Fault::Kinds` and `Fault::Memory`.
pub fn answer_kinds(
    alloc: Global,
    format: Format,
    unit: Option<TimeUnit>,
    text: &[u8],
) -> Result<Answer, Fault>
    ensures { SaysUnlessMemory (KindTableSays format unit) text.now (reply_of result) }
{
    let text = kinds_answer(alloc, format, unit, text)?;
    Ok(Answer {
        done: Done::Fine,
        text,
        known: None,
    })
}

/// The greatest of these ceilings, and traffic that is sought by so many simulations at most ([`worst_kind_answer`]). It ends
/// as `Done::Fine` where the traffic attains it, and else as `Done::Open`. The faults are the same.
pub fn answer_worst_kind(
    alloc: Global,
    simulations: u64,
    unit: Option<TimeUnit>,
    text: &[u8],
) -> Result<Answer, Fault>
    ensures { SaysUnlessMemory (WorstKindSays unit) text.now (reply_of result) }
{
    let (is_attained, text) = worst_kind_answer(alloc, unit, simulations, text)?;
    Ok(Answer {
        done: end_of_worst(is_attained),
        text,
        known: None,
    })
}

/// How it ends.
fn end_of_worst(is_attained: bool) -> Done
    ensures { result ≡ end_of_worst is_attained }
{
    if is_attained { Done::Fine } else { Done::Open }
}
