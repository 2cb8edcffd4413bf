ghost use Rattle.std.specs.Prelude.{◌≡◌, ◌<◌, length};
ghost use Rattle.convoy_packets.specs.Order.{no_order, rank_at};

use super::table_places::{PLACES, place};
use convoy_scenario::{MOST_GROUPS, MOST_MULTICASTS};
use std::marker::Model;

/// The greatest rank of a moment.
pub const GREATEST_RANK: u8 = u8::MAX;

/// An order of ties: the rank of each arrival and of each commit. What happens at one group in one
/// tick happens in the order of ranks (docs/PROTOCOL.md).
#[derive(Clone, Copy)]
pub struct Order {
    arrivals: [u8; PLACES],
    commits: [u8; PLACES],
}

impl Model for Order {
    ghost use Rattle.convoy_packets.specs.Order.{Order};

    ghost Value = { Order };

    ghost view = { λ o. record { arrivals = o.arrivals; commits = o.commits } };

    ghost inverse = { λ o. record { arrivals = o.arrivals; commits = o.commits } };
}

impl Order {
    /// The order in which all ranks are 0, so that ties fall in the fixed order.
    #[tactic(auto, unfolding(crate::specs::Order::no_order))]
    pub fn none() -> Order
        ensures { result ≡ no_order }
    {
        Order {
            arrivals: [0; PLACES],
            commits: [0; PLACES],
        }
    }

    /// The order with these ranks of arrivals and of commits, each by its place.
    pub(crate) fn of_tables(arrivals: [u8; PLACES], commits: [u8; PLACES]) -> Order
        ensures { result ≡ record { arrivals = arrivals; commits = commits } }
    {
        Order { arrivals, commits }
    }

    /// The ranks of the arrivals, by place.
    pub(crate) fn arrivals(&self) -> &[u8]
        ensures value { result.now ≡ self.now.arrivals }
        ensures long { length result.now ≡ PLACES }
    {
        &self.arrivals
    }

    /// The ranks of the commits, by place.
    pub(crate) fn commits(&self) -> &[u8]
        ensures value { result.now ≡ self.now.commits }
        ensures long { length result.now ≡ PLACES }
    {
        &self.commits
    }

    /// The rank of the arrival of a message at a group.
    pub fn arrival(&self, message: usize, group: usize) -> u8
        requires message { message < MOST_MULTICASTS }
        requires group { group < MOST_GROUPS }
        ensures { result ≡ rank_at self.now.arrivals message group }
    {
        self.arrivals()[place(message, group)]
    }

    /// The rank of the commit of a message at a group.
    pub fn commit(&self, message: usize, group: usize) -> u8
        requires message { message < MOST_MULTICASTS }
        requires group { group < MOST_GROUPS }
        ensures { result ≡ rank_at self.now.commits message group }
    {
        self.commits()[place(message, group)]
    }
}
