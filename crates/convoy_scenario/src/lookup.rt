//! What is told of a message of any number, be there one or not: where the scenario has no such message, it is that of
//! a message of a client, issued at tick 0, that does not wait.

ghost use Rattle.std.specs.Prelude.{◌≡◌, ◌≤◌};
ghost use Rattle.convoy_scenario.specs.Scenario.{message_at, may_wait, window_of};

use super::scenario::Scenario;
use super::sender::Sender;
use convoy_draft::GREATEST_AT;

/// Who issues a message; a client where the scenario has no such message.
pub fn sender_of(scenario: &Scenario, message: usize) -> Sender
    ensures { result ≡ (message_at scenario.now message).sender }
{
    if message < scenario.message_count() {
        scenario.sender(message)
    } else {
        Sender::Client(0)
    }
}

/// The first tick at which a message may be issued; 0 where the scenario has no such message.
pub fn first_tick(scenario: &Scenario, message: usize) -> u32
    ensures value { result ≡ (message_at scenario.now message).at }
    ensures soon { result ≤ GREATEST_AT }
{
    if message < scenario.message_count() {
        scenario.issue_tick(message)
    } else {
        0
    }
}

/// How many ticks a message waits at most; 0 where the scenario has no such message.
pub fn longest_wait(scenario: &Scenario, message: usize) -> u16
    ensures { result ≡ (message_at scenario.now message).longest_wait }
{
    if message < scenario.message_count() {
        scenario.longest_wait(message)
    } else {
        0
    }
}

/// Whether a message may wait, so that it has several ticks to be issued at; not where the scenario has no such
/// message.
pub fn may_wait(scenario: &Scenario, message: usize) -> bool
    ensures { result ≡ may_wait (message_at scenario.now message) }
{
    0 < longest_wait(scenario, message)
}

/// The first and the last tick at which a message may be issued; 0 and 0 where the scenario has no such message.
pub fn window(scenario: &Scenario, message: usize) -> (u32, u32)
    ensures { result ≡ window_of (message_at scenario.now message) }
{
    let first = first_tick(scenario, message);
    (first, first + u32::from(longest_wait(scenario, message)))
}
