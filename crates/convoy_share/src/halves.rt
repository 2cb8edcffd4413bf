//! Where the first half of a split goes.

ghost use Rattle.std.specs.Prelude.{◌≡◌, List, false};
ghost use Rattle.convoy_scenario.specs.Scenario.{Scenario};
ghost use Rattle.convoy_regions.specs.Regions.{Region};
ghost use Rattle.convoy_share.specs.Halves.{IsPlaced};

use super::piece::Piece;
use convoy_regions::Branch;
use convoy_share_deque::Owner;

/// Where the first half of a split goes. An implementation says by `takes` of which scenario the
/// branches are to be, by `put` which of them were put aside, by number, and by `fixed` what it is
/// apart from those, which no call changes.
pub(crate) trait Halves {
    ghost takes: { Self → Scenario → Type 0 };

    ghost put: { Self → List Region };

    ghost fixed: { Self → Self };

    /// Puts a first half aside under the next number, or keeps it: the piece that stands for it in the
    /// tree. `workers` is how many workers there are.
    fn place(&mut self, first: Branch, workers: u32) -> Piece
        requires { takes (fixed self.old) first.scenario }
        ensures placed { IsPlaced (put self.old) (put self.new) first result }
        ensures fixed { fixed self.new ≡ fixed self.old };
}

/// Keeps each first half in the tree.
#[derive(Drop)]
pub(crate) struct Keeps;

impl Halves for Keeps {
    ghost use Rattle.std.specs.Prelude.{[]};

    ghost takes = { λ _ _. Unit {0} };

    ghost put = { λ _. [] };

    ghost fixed = { λ keeps. keeps };

    fn place(&mut self, first: Branch, _workers: u32) -> Piece {
        kept(first)
    }
}

/// Offers each first half to thieves. It keeps one where as many branches as there are workers wait
/// already, or where the deque can't grow.
impl Halves for Owner {
    ghost use Rattle.std.specs.Prelude.{◌≡◌, []};

    ghost takes = { λ owner scenario. owner.scenario ≡ scenario };

    ghost put = { λ owner. owner.put };

    ghost fixed = { λ owner. record owner { put = [] } };

    fn place(&mut self, first: Branch, workers: u32) -> Piece {
        if self.len() >= workers as usize {
            return kept(first);
        }
        match self.put(first) {
            Ok(number) => Piece::Pushed(number),
            Err(first) => kept(first),
        }
    }
}

/// A first half that stays in the tree.
fn kept(first: Branch) -> Piece
    ensures { result ≡ Piece.Todo first false }
{
    Piece::Todo {
        branch: first,
        tried: false,
    }
}
