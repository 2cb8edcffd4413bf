ghost use Rattle.convoy_plans.specs.Plans.{Home, WrittenPlan};

use super::lists::Names;
use convoy_scenario::Name;
use convoy_toml::WrittenScenario;
use std::marker::Model;

/// The table of a group.
#[derive(Drop)]
pub(crate) struct Home {
    pub(crate) name: Name,
    /// The sites at which it may be.
    pub(crate) sites: Vec<Name>,
}

impl Model for Home {
    ghost Value = { Home };

    ghost view = { λ h. record { name = h.name; sites = h.sites.items } };
}

/// What is written in a plan's table, with names in place of numbers.
#[derive(Drop)]
pub(crate) struct WrittenPlan {
    /// What a scenario's table has too, with sites in its links and as senders.
    pub(crate) scenario: WrittenScenario,
    pub(crate) sites: Vec<Name>,
    /// The tables of the groups, in their order.
    pub(crate) homes: Vec<Home>,
    /// The lists of groups no two of which are at one site.
    pub(crate) apart: Vec<Names>,
}

impl Model for WrittenPlan {
    ghost Value = { WrittenPlan };

    ghost view = { λ p. record { scenario = p.scenario; sites = p.sites.items; homes = p.homes.items; apart = p.apart.items } };
}
