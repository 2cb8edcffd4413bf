//! Names of messages in traffic: those of the kinds, and others after them where there are copies.

ghost use Rattle.std.specs.Prelude.{◌<◌, length};

use convoy_scenario::{DraftMulticast, Name, Scenario};
use std::alloc::{AllocError, Global};

/// How long a name is at most after which copies are named.
const LONGEST_STEM: usize = 12;

/// What the names of copies begin with where the name of their kind is too long.
const STEM: &str = "copy";

/// The greatest number at the end of a name.
const GREATEST_NUMBER: usize = 64;

/// A name for one more message of a kind: that of the kind, or where that is the target's or is taken, the
/// first free one of those with a number from 2 on after it.
pub fn name_for(
    alloc: Global,
    scenario: &Scenario,
    kind: usize,
    taken: &[DraftMulticast],
) -> Result<Name, AllocError>
    requires { kind < length scenario.now.multicasts }
{
    let text = scenario.message_name(kind);
    let own = Name::new(alloc, text)?;
    if is_free(scenario, &own, taken) {
        return Ok(own);
    }
    let stem = if text.len() <= LONGEST_STEM {
        text
    } else {
        STEM
    };
    for number in 2..=GREATEST_NUMBER {
        let numbered = format!(in alloc; "{stem}-{number}")?;
        let name = Name::new(alloc, numbered.as_str())?;
        if is_free(scenario, &name, taken) {
            return Ok(name);
        }
    }
    Ok(own)
}

/// Whether a name is neither the target's nor that of one of the messages.
fn is_free(scenario: &Scenario, name: &Name, taken: &[DraftMulticast]) -> bool {
    let target = scenario.message_name(scenario.target_message());
    name.as_str() != target && !is_taken(name, taken)
}

/// Whether one of the messages has the name.
fn is_taken(name: &Name, messages: &[DraftMulticast]) -> bool {
    messages.iter().any(|message| message.name.is_same(name))
}
