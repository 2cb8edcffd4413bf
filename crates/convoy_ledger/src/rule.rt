//! The rule that holds of the ledger's word between any two steps, and the names of its steps
//! (`specs/Rule.antt`).

use atomic_table::{Join, Play, Split, TableRule};
use std::collections::LinkedList;

/// What the rule knows of one clerk. No value of it is made.
pub struct View {
    /// How many tickets its ledger has.
    pub most: u64,
    /// The tickets that it drew.
    pub tickets: LinkedList<u64>,
    /// How many of its draws found none left.
    pub misses: u64,
    /// Its share.
    pub share: u64,
    /// Whether it is done.
    pub done: bool,
}

/// The word counts the draws: each ticket drawn, and each draw that found none left.
pub struct CountsDraws;

impl TableRule<(), View, u64> for CountsDraws {
    ghost use Rattle.convoy_ledger.specs.Rule.{Holds, first_view};

    ghost holds = { Holds };

    ghost first = { first_view };
}

/// A draw.
pub struct Draw;

impl Play<(), View> for Draw {
    ghost use Rattle.convoy_ledger.specs.Rule.{Drew};

    ghost then = { Drew };
}

/// A look at the share of a clerk, which is within the whole.
pub struct Weigh;

impl Play<(), View> for Weigh {
    ghost use Rattle.convoy_ledger.specs.Rule.{Weighed};

    ghost then = { Weighed };
}

/// How a clerk is split, and how two are joined.
pub struct Halve;

impl Split<View> for Halve {
    ghost use Rattle.convoy_ledger.specs.Rule.{kept_half, given_half};

    ghost left = { kept_half };

    ghost right = { given_half };
}

impl Join<View> for Halve {
    ghost use Rattle.convoy_ledger.specs.Rule.{joined, spent};

    ghost both = { joined };

    ghost spent = { spent };
}
