//! How many deliveries a trace tells, and how many there are.

ghost use Rattle.std.specs.Prelude.{◌≡◌, count_by, length, sum_by};
ghost use Rattle.convoy_fits_told.specs.Words.{deliveries_of, is_delivery};

use convoy_scenario::Scenario;
use convoy_traces::{Event, Told};

/// Whether the event is a delivery.
fn is_delivery(event: Event) -> bool
    ensures { result ≡ is_delivery event }
{
    match event {
        Event::Issue => false,
        Event::Arrival(_) => false,
        Event::Proposal(_, _) => false,
        Event::Commit(_) => false,
        Event::Delivery(_) => true,
    }
}

/// How many deliveries are told.
pub(crate) fn deliveries_told(told: &[Told]) -> usize
    ensures { result ≡ count_by (λ one. is_delivery one.event) told.now }
{
    told.iter().filter(|one| is_delivery(one.event)).count()
}

/// How many there are in a run: one of each message at each group that it goes to.
pub(crate) fn deliveries_of(scenario: &Scenario) -> u128
    ensures { result ≡ deliveries_of scenario.now }
{
    let mut count = 0;
    for message in 0..scenario.message_count() {
        count += scenario.destinations(message).len() as u128;
    }
    count
}
