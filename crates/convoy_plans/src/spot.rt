ghost use Rattle.convoy_plans.specs.Placements.{Spot};

use convoy_scenario::Name;
use std::marker::Model;

/// A place from which something is sent.
#[derive(Drop)]
pub(crate) struct Spot {
    /// Its name in the scenario, or none for clients.
    pub(crate) name: Option<Name>,
    /// Its site.
    pub(crate) site: usize,
}

impl Model for Spot {
    ghost Value = { Spot };

    ghost view = { λ s. record { name = s.name; site = s.site } };
}
