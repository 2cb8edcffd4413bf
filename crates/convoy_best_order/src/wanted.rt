ghost use Rattle.std.specs.Prelude.{◌≡◌};
ghost use Rattle.convoy_best_order.specs.Targets.{is_wanted};

/// For which messages, at which groups, an order is to be the best.
#[derive(Clone, Copy)]
pub enum Wanted {
    /// For each message that does not wait, at each group that it goes to.
    All,
    /// For those of them that have a deadline, or where none has one for the target of which the latency is asked.
    Deadlines,
    /// For that target alone.
    Asked,
}

impl Wanted {
    /// Whether it is to be the best for a message with that deadline, if it has one, at each group that it goes to.
    pub(crate) fn is_wanted(self, deadline: Option<u32>) -> bool
        ensures { result ≡ is_wanted self deadline }
    {
        match self {
            Wanted::All => true,
            Wanted::Deadlines => deadline.is_some(),
            Wanted::Asked => false,
        }
    }
}
