//! Messages, groups and places by their names.

ghost use Rattle.std.specs.Prelude.{◌≡◌, IfSome, ◌<◌, length};
ghost use Rattle.convoy_scenario.specs.Scenario.{is_addressed, message_at};
ghost use Rattle.convoy_traces.specs.Rows.{message_numbered, numbered};

use convoy_scenario::Scenario;

/// The number of the message of that name.
pub(crate) fn message_numbered(scenario: &Scenario, word: &[u8]) -> Option<usize>
    ensures { result ≡ message_numbered 0 scenario.now.multicasts word.now }
{
    for message in 0..scenario.message_count() {
        if scenario.message_name(message).as_bytes() == word {
            return Some(message);
        }
    }
    None
}

/// The number of the group of that name.
pub fn group_numbered(scenario: &Scenario, word: &[u8]) -> Option<usize>
    ensures { result ≡ numbered 0 scenario.now.groups word.now }
{
    for group in 0..scenario.group_count() {
        if scenario.group_name(group).as_bytes() == word {
            return Some(group);
        }
    }
    None
}

/// The number of the place of that name, as that of a client there: from 1.
pub fn place_numbered(scenario: &Scenario, word: &[u8]) -> Option<usize>
    ensures { result ≡ numbered 1 scenario.now.places word.now }
{
    for place in 0..scenario.place_count() {
        if scenario.place_name(place).as_bytes() == word {
            return Some(place + 1);
        }
    }
    None
}

/// Whether the message goes to the group.
pub(crate) fn is_addressed(scenario: &Scenario, message: usize, group: usize) -> bool
    ensures { result ≡ is_addressed (message_at scenario.now message) group }
{
    message < scenario.message_count() && scenario.destinations(message).contains(&group)
}
