ghost use Rattle.convoy_commands.specs.Ranging.{RangesSay};
ghost use Rattle.convoy_commands.specs.Replies.{SaysUnlessMemory, reply_of};

use super::answer::Answer;
use super::done::Done;
use super::fault::Fault;
use convoy_ranges::{RangesAsked, ranges_text};
use std::alloc::Global;

/// The links that a table of round trips gives by these rules, as TOML ([`ranges_text`]). The faults are `Fault::Ranges`
/// and `Fault::Memory`.
pub fn ranges_answer(alloc: Global, asked: &RangesAsked, text: &[u8]) -> Result<Answer, Fault>
    ensures { SaysUnlessMemory (RangesSay asked.now) text.now (reply_of result) }
{
    let links = ranges_text(alloc, asked, text)?;
    Ok(Answer {
        done: Done::Fine,
        text: links.into_bytes(),
        known: None,
    })
}
