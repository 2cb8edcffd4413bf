ghost use Rattle.std.specs.Prelude.{◌≡◌, ◌^◌, ◌-◌, min};
ghost use Rattle.convoy_toml.specs.Links.{count_of, Bundle};

use super::written::LinkEnds;
use std::marker::Model;

/// The links of a table, with their range in ticks.
#[derive(Drop)]
pub struct Bundle {
    /// Where they lead.
    pub ends: LinkEnds,
    /// The least delay, in ticks.
    pub least: i64,
    /// The greatest delay, in ticks.
    pub most: i64,
    /// Whether a group's own stamps go by those from a group to itself, too.
    pub stamps: bool,
}

impl Model for Bundle {
    ghost Value = { Bundle };

    ghost view = { λ b. record { ends = b.ends; least = b.least; most = b.most; stamps = b.stamps } };
}

impl Bundle {
    /// How many ways there are, those from a group to itself among them; `usize::MAX` where there are
    /// more.
    pub fn count(&self) -> usize
        ensures { result ≡ min (count_of self.now) (2 ^ 64 - 1) }
    {
        let senders = match &self.ends.senders {
            Some(names) => names.len(),
            None => 1,
        };
        let directions = if self.ends.both { 2 } else { 1 };
        senders
            .saturating_mul(self.ends.to.len())
            .saturating_mul(directions)
    }
}
