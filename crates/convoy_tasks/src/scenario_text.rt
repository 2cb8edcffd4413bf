//! The text of the scenario that is asked about.

ghost use Rattle.convoy_commands.specs.Replies.{SaysUnlessMemory, reply_of};
ghost use Rattle.convoy_tasks.specs.ScenarioTexts.{ScenarioTextSays};

use convoy_best_order::listing_text;
use convoy_commands::{Answer, Done, Fault};
use convoy_toml::{Asked, read_toml_asked};
use std::alloc::Global;

/// The scenario of a text that is asked about, as a text that reads as it: all its times are numbers of ticks, it gives
/// the schedule of least delays, and of deadlines it says nothing. The faults are those of [`read_toml_asked`], and
/// `Fault::Memory`.
pub(crate) fn answer_scenario(alloc: Global, asked: &Asked, text: &[u8]) -> Result<Answer, Fault>
    ensures { SaysUnlessMemory (ScenarioTextSays asked.now) text.now (reply_of result) }
{
    let input = read_toml_asked(alloc, text, asked)?;
    let scenario = input.scenario;
    let told = listing_text(alloc, scenario.copy()?)?;
    Ok(Answer::about(Done::Fine, told, scenario, input.plain))
}
