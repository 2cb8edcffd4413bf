//! Lists that stand in lists.

use convoy_scenario::Name;
use std::marker::Model;

/// Some numbers.
#[derive(Drop)]
pub(crate) struct Numbers {
    pub(crate) items: Vec<usize>,
}

impl Model for Numbers {
    ghost use Rattle.std.specs.Prelude.{List, ℕ};

    ghost Value = { List ℕ };

    ghost view = { λ n. n.items.items };
}

/// Some names.
#[derive(Drop)]
pub(crate) struct Names {
    pub(crate) items: Vec<Name>,
}

impl Model for Names {
    ghost use Rattle.std.specs.Prelude.{List, ℕ};

    ghost Value = { List (List ℕ) };

    ghost view = { λ n. n.items.items };
}
