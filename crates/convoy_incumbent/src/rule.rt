//! The rule that holds of the board's word between any two steps, and the names of its steps
//! (`specs/Rule.antt`).

use atomic_table::{Join, Play, Split, TableRule};
use convoy_scenario::Scenario;
use convoy_sim::{Record, Tag};
use std::collections::LinkedList;

/// A latency in ticks, and the place in the board's table of a record that has it.
#[derive(Drop)]
pub struct Pair {
    pub latency: u32,
    pub place: u64,
}

/// What a board is told once, when it is opened: its records, their scenario, and the first pair.
#[derive(Drop)]
pub struct Store {
    pub records: boxcar::Vec<Record>,
    pub scenario: Tag<Scenario>,
    pub first: Pair,
}

/// What the rule knows of one hand. No value of it is made.
pub struct View {
    /// The board's store.
    pub store: Store,
    /// The greatest latency that it has seen, in ticks.
    pub seen: u32,
    /// The pairs that it put.
    pub pairs: LinkedList<Pair>,
    /// Its share.
    pub share: u64,
}

/// The word is the greatest of the pairs that hands put.
pub struct KeepsGreatest;

impl TableRule<(), View, Store> for KeepsGreatest {
    ghost use Rattle.convoy_incumbent.specs.Rule.{Holds, first_view};

    ghost holds = { Holds };

    ghost first = { first_view };
}

/// A look at the word.
pub struct Look;

impl Play<(), View> for Look {
    ghost use Rattle.convoy_incumbent.specs.Rule.{Looked};

    ghost then = { Looked };
}

/// A pair is put, and the word rises to it where it is greater.
pub struct Publish;

impl Play<(), View> for Publish {
    ghost use Rattle.convoy_incumbent.specs.Rule.{Published};

    ghost then = { Published };
}

/// A look at what a hand has: its share is within the whole, and with the whole share it put the
/// word's pair.
pub struct Weigh;

impl Play<(), View> for Weigh {
    ghost use Rattle.convoy_incumbent.specs.Rule.{Weighed};

    ghost then = { Weighed };
}

/// How a hand is split, and how two are joined.
pub struct Halve;

impl Split<View> for Halve {
    ghost use Rattle.convoy_incumbent.specs.Rule.{kept_half, given_half};

    ghost left = { kept_half };

    ghost right = { given_half };
}

impl Join<View> for Halve {
    ghost use Rattle.convoy_incumbent.specs.Rule.{joined, spent};

    ghost both = { joined };

    ghost spent = { spent };
}
