ghost use Rattle.std.specs.Prelude.{◌≡◌, ℕ, ◌<◌, ◌≤◌, [], ◌∷◌, ◌++◌, length, map, All, IfOk};
ghost use Rattle.std.specs.List.{range_with_len};
ghost use Rattle.convoy_scenario.specs.Scenario.{message_at, message_numbers, is_addressed};
ghost use Rattle.convoy_sim.specs.Delivery.{addressed_to};

use arrayvec::ArrayVec;
use convoy_scenario::{MOST_GROUPS, MOST_MULTICASTS, Scenario};
use std::alloc::{AllocError, Global};
use std::marker::Model;

/// Some messages of a scenario, by their numbers.
#[derive(Drop)]
pub struct Messages {
    numbers: ArrayVec<usize, MOST_MULTICASTS>,
}

impl Model for Messages {
    ghost use Rattle.std.specs.Prelude.{ℕ, List, ◌<◌, All};

    ghost Value = { List ℕ };

    ghost view = { λ m. m.numbers.items };

    ghost invariant = { λ m. All (λ z. z < 16) m.numbers.items };
}

impl Messages {
    /// None yet.
    pub fn new() -> Messages
        ensures { result ≡ [] }
    {
        Messages {
            numbers: ArrayVec::new(),
        }
    }

    /// Adds a message.
    pub fn push(&mut self, message: usize)
        requires known { message < MOST_MULTICASTS }
        requires room { length self.old < MOST_MULTICASTS }
        ensures { self.new ≡ self.old ++ message ∷ [] }
    {
        self.numbers.push(message);
    }

    /// The numbers of the messages.
    pub fn numbers(&self) -> &[usize]
        ensures value { result.now ≡ self.now }
        ensures known { All (λ z. z < MOST_MULTICASTS) result.now }
        ensures few { length result.now ≤ MOST_MULTICASTS }
    {
        &self.numbers
    }
}

/// The messages that go to a group.
fn addressed_to(scenario: &Scenario, group: usize) -> Messages
    ensures { result ≡ addressed_to scenario.now group }
{
    let mut messages = Messages::new();
    for message in 0..scenario.message_count() {
        if is_addressed(scenario, message, group) {
            messages.push(message);
        }
    }
    messages
}

/// All messages of a scenario.
pub fn all_messages(scenario: &Scenario) -> Messages
    ensures { result ≡ message_numbers scenario.now }
{
    let mut messages = Messages::new();
    for message in 0..scenario.message_count() {
        messages.push(message);
    }
    messages
}

/// One message alone.
pub fn one_message(message: usize) -> Messages
    requires { message < MOST_MULTICASTS }
    ensures { result ≡ message ∷ [] }
{
    let mut messages = Messages::new();
    messages.push(message);
    messages
}

/// Whether a message goes to a group.
pub(crate) fn is_addressed(scenario: &Scenario, message: usize, group: usize) -> bool
    requires { message < length scenario.now.multicasts }
    ensures { result ≡ is_addressed (message_at scenario.now message) group }
{
    scenario.destinations(message).contains(&group)
}

/// The groups that a message goes to.
#[tactic(auto, using(crate::proofs::Known::destinations_low))]
pub fn destinations(scenario: &Scenario, message: usize) -> &[usize]
    requires { message < length scenario.now.multicasts }
    ensures value { result.now ≡ (message_at scenario.now message).destinations }
    ensures known { All (λ g. g < MOST_GROUPS) result.now }
    ensures few { message < MOST_MULTICASTS }
{
    scenario.destinations(message)
}

/// The messages that go to each group, for as many groups as there may be. The error is that memory
/// ran out.
pub fn audiences(alloc: Global, scenario: &Scenario) -> Result<Vec<Messages>, AllocError>
    ensures { IfOk result
        (λ lists. lists.items ≡ map (addressed_to scenario.now) (range_with_len 0 MOST_GROUPS)) }
{
    let mut lists = Vec::with_capacity(alloc, MOST_GROUPS)?;
    for group in 0..MOST_GROUPS {
        lists.push(addressed_to(scenario, group))?;
    }
    Ok(lists)
}
