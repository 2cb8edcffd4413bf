ghost use Rattle.std.specs.Prelude.{◌≡◌, ◌⊎◌, ◌≤◌, ◌<◌, IsFalse, IsTrue, false, true};
ghost use Rattle.convoy_branch.specs.declared.splits.Splits.TheVariants.{Orders};

use super::gate::Gate;
use super::splits::Splits;

/// How far a search goes, and how.
#[derive(Clone, Copy)]
pub struct Limit {
    /// How many tickets it spends at most.
    pub tickets: u64,
    /// Whether its gate is asked, before each region that is taken up, whether the search is to stop.
    pub may_stop: bool,
    /// By what regions are split in a search by leads in real time.
    pub splits: Splits,
}

impl Limit {
    /// So many tickets, of a search that nothing stops.
    pub fn of(tickets: u64) -> Limit
        ensures { result ≡ record { tickets = tickets; may_stop = false; splits = Orders } }
    {
        Limit {
            tickets,
            may_stop: false,
            splits: Splits::Orders,
        }
    }

    /// The same with so many tickets.
    pub fn with_tickets(self, tickets: u64) -> Limit
        ensures { result ≡ record self { tickets = tickets } }
    {
        Limit { tickets, ..self }
    }

    /// Whether the search is to stop: its gate says so, where it may.
    pub fn is_over<G: Gate>(self, gate: &G) -> bool
        ensures { IsTrue result → self.may_stop ≡ true }
    {
        self.may_stop && gate.is_over()
    }

    /// Whether a search that has spent so many tickets may take up a region.
    pub(crate) fn allows<G: Gate>(self, tickets: u64, gate: &G) -> bool
        ensures some { IsTrue result → tickets < self.tickets }
        ensures none { IsFalse result → (self.tickets ≤ tickets) ⊎ (self.may_stop ≡ true) }
    {
        tickets < self.tickets && !self.is_over(gate)
    }
}
