ghost use Rattle.std.specs.Prelude.{option_map};
ghost use Rattle.convoy_kinds.specs.Shape.{WrittenKind, WrittenKinds};

use convoy_scenario::Name;
use convoy_toml::WrittenScenario;
use std::marker::Model;

/// A table of kinds as it is written, with names in place of numbers.
#[derive(Drop)]
pub(crate) struct WrittenKind {
    pub(crate) name: Name,
    /// The groups and the places that send, or none where clients of no named place do.
    pub(crate) senders: Option<Vec<Name>>,
    /// The groups to all of which each message goes, where they are written.
    pub(crate) to: Option<Vec<Name>>,
    /// To how many groups each message goes, where that is written.
    pub(crate) sizes: Option<Vec<i64>>,
}

impl Model for WrittenKind {
    ghost Value = { WrittenKind };

    ghost view = { λ k. record {
      name = k.name;
      senders = option_map (λ names. names.items) k.senders;
      to = option_map (λ names. names.items) k.to;
      sizes = option_map (λ sizes. sizes.items) k.sizes;
    } };
}

/// A kinds text as it is written.
#[derive(Drop)]
pub(crate) struct WrittenKinds {
    /// What the kinds share.
    pub(crate) setting: WrittenScenario,
    /// The tables of kinds, in their order.
    pub(crate) tables: Vec<WrittenKind>,
}

impl Model for WrittenKinds {
    ghost Value = { WrittenKinds };

    ghost view = { λ k. record { setting = k.setting; tables = k.tables.items } };
}
