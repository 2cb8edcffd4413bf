ghost use Rattle.std.specs.Prelude.{◌≡◌};
ghost use Rattle.convoy_fits.specs.Skews.{is_same_teller, teller_of};

use convoy_scenario::lookup::sender_of;
use convoy_scenario::{Scenario, Sender};
use convoy_traces::Event;

/// By whose clock something is told.
#[derive(Clone, Copy)]
pub enum Teller {
    /// That of the group of this number.
    Group(usize),
    /// That by which a client issues the message of this number.
    Client(usize),
}

/// By whose clock an event is told: by that of its group, and the issue of a message of a client by one of its own.
pub(crate) fn teller_of(scenario: &Scenario, message: usize, event: Event) -> Teller
    ensures { result ≡ teller_of scenario.now message event }
{
    match event {
        Event::Issue => match sender_of(scenario, message) {
            Sender::Client(_) => Teller::Client(message),
            Sender::Group(group) => Teller::Group(group),
        },
        Event::Arrival(group) => Teller::Group(group),
        Event::Proposal(group, _) => Teller::Group(group),
        Event::Commit(group) => Teller::Group(group),
        Event::Delivery(group) => Teller::Group(group),
    }
}

/// Whether both are one clock.
pub(crate) fn is_same_teller(teller: Teller, other: Teller) -> bool
    ensures { result ≡ is_same_teller teller other }
{
    match (teller, other) {
        (Teller::Group(group), Teller::Group(second)) => group == second,
        (Teller::Client(message), Teller::Client(second)) => message == second,
        _ => false,
    }
}
