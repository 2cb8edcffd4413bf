//! The tree over a branch that a worker took.

ghost use Rattle.std.specs.Prelude.{◌≡◌, [], ◌∷◌, ◌++◌, reverse, OnOk};

use super::piece::Settled;
use std::alloc::AllocError;
use std::marker::Model;

/// The tree over a branch that was taken, as far as it was searched. Contracts see the number of the
/// branch and the pieces in order.
#[derive(Drop)]
pub(crate) struct Tree {
    number: u64,
    /// From the last one back.
    pieces: Vec<Settled>,
}

impl Model for Tree {
    ghost use Rattle.std.specs.Prelude.{reverse};
    ghost use Rattle.convoy_share.specs.Subtrees.{Subtree};

    ghost Value = { Subtree };

    ghost view = { λ t. record { number = t.number; pieces = reverse t.pieces.items } };
}

impl Tree {
    /// A tree of pieces that stand from the last one back.
    pub fn of(number: u64, pieces: Vec<Settled>) -> Tree
        ensures { result ≡ record { number = number; pieces = reverse pieces.items } }
    {
        Tree { number, pieces }
    }

    /// The number of the branch, and the pieces from the last one back.
    pub fn into_parts(self) -> (u64, Vec<Settled>)
        ensures number { result.0 ≡ self.number }
        ensures pieces { reverse result.1.items ≡ self.pieces }
    {
        let Tree { number, pieces } = self;
        (number, pieces)
    }
}

/// Keeps a tree.
pub(crate) fn keep(trees: &mut Vec<Tree>, tree: Tree) -> Result<(), AllocError>
    ensures { OnOk result (trees.new.items ≡ trees.old.items ++ tree ∷ []) }
{
    trees.push(tree)?;
    Ok(())
}
