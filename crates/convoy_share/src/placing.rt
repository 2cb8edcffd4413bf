//! How the trees of all workers come to lie by their numbers.

ghost use Rattle.std.specs.Prelude.{◌≡◌, ℕ, List, [], replicate, reverse, IfOk};
ghost use Rattle.convoy_scenario.specs.Scenario.{Scenario};
ghost use Rattle.convoy_regions.specs.Regions.{Region};
ghost use Rattle.convoy_branch.specs.declared.bounds.Bounds.{Bounds};
ghost use Rattle.convoy_share_deque.specs.declared.task.Task.{Task};
ghost use Rattle.convoy_share.specs.Filling.{CanBeFilled, IsFilling, IsPlacing};
ghost use Rattle.convoy_share.specs.Subtrees.{Subtree};

use super::filling::{Filling, Slot};
use super::piece::Settled;
use super::tree::Tree;
use std::alloc::{AllocError, Global};

impl Filling {
    /// The start: each tree lies under its number, and the place of the root is next. `count` branches
    /// were put.
    pub fn of(alloc: Global, count: u64, trees: Vec<Tree>) -> Result<Filling, AllocError>
        requires { (bounds : Bounds) × (scenario : Scenario) × (seen : ℕ) × (tickets : ℕ)
            × (put : List Region) × (taken : List Task)
            × CanBeFilled bounds scenario seen tickets count put taken trees.items }
        ensures filling { (bounds : Bounds) (scenario : Scenario) (seen tickets : ℕ)
            (put : List Region) (taken : List Task)
            → CanBeFilled bounds scenario seen tickets count put taken trees.items
            → IfOk result (λ filling. IsFilling bounds scenario seen tickets put
            filling.done.items (reverse filling.rest.items) filling.slots.items) }
        ensures done { IfOk result (λ filling. filling.done.items ≡ []) }
    {
        let slots = place_trees(empty_slots(alloc, count)?, trees);
        let mut rest = Vec::new(alloc);
        rest.push(Settled::pushed(0))?;
        Ok(Filling {
            done: Vec::new(alloc),
            rest,
            slots,
        })
    }
}

/// So many slots, with no tree yet.
#[tactic(auto, using(std::proofs::lemmas::List::replicate_more))]
fn empty_slots(alloc: Global, count: u64) -> Result<Vec<Slot>, AllocError>
    ensures { IfOk result (λ slots. slots.items ≡ replicate count []) }
{
    let mut slots = Vec::new(alloc);
    for number in 0..count {
        slots.push(Slot::empty(alloc))?;
    }
    Ok(slots)
}

/// Puts each tree into the slot of its number.
fn place_trees(mut slots: Vec<Slot>, mut trees: Vec<Tree>) -> Vec<Slot>
    requires { (bounds : Bounds) × (scenario : Scenario) × (seen : ℕ) × (put : List Region)
        × (all : List Subtree) × (taken : List Task)
        × IsPlacing bounds scenario seen put all slots.items taken trees.items }
    ensures { (bounds : Bounds) (scenario : Scenario) (seen : ℕ) (put : List Region)
        (all : List Subtree) (taken : List Task)
        → IsPlacing bounds scenario seen put all slots.items taken trees.items
        → IsPlacing bounds scenario seen put all result.items [] [] }
{
    trees.reverse();
    while let Some(tree) = trees.pop() {
        let (number, pieces) = tree.into_parts();
        slots[number as usize] = Slot::of(pieces);
    }
    slots
}
