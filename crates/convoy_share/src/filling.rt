//! How the trees of all workers become one.

ghost use Rattle.std.specs.Prelude.{◌≡◌, ◌<◌, ◌+◌, ℕ, List, [], ◌∷◌, ◌++◌, length, reverse, slice_set};
ghost use Rattle.std.specs.Prelude.{IfNone, IfOk, IfSome, OnOk};
ghost use Rattle.std.specs.List.{sum_by};
ghost use Rattle.convoy_scenario.specs.Scenario.{Scenario};
ghost use Rattle.convoy_regions.specs.Regions.{Region};
ghost use Rattle.convoy_branch.specs.Fronts.{left_in};
ghost use Rattle.convoy_branch.specs.declared.bounds.Bounds.{Bounds};
ghost use Rattle.convoy_share.specs.Filling.{IsFilling, slot_at};
ghost use Rattle.convoy_share.specs.Pieces.{front};

use super::piece::{Piece, Settled};
use convoy_regions::Branch;
use std::alloc::{AllocError, Global};
use std::marker::Model;

/// The tree of one number, or nothing. Contracts see its pieces in order.
#[derive(Drop)]
pub(crate) struct Slot {
    /// From the last one back.
    pieces: Vec<Settled>,
}

impl Model for Slot {
    ghost use Rattle.std.specs.Prelude.{List, reverse};
    ghost use Rattle.convoy_share.specs.declared.piece.Piece.{Piece};

    ghost Value = { List Piece };

    ghost view = { λ s. reverse s.pieces.items };
}

impl Slot {
    /// No tree.
    pub fn empty(alloc: Global) -> Slot
        ensures { result ≡ [] }
    {
        Slot {
            pieces: Vec::new(alloc),
        }
    }

    /// A tree of pieces that stand from the last one back.
    pub fn of(pieces: Vec<Settled>) -> Slot
        ensures { result ≡ reverse pieces.items }
    {
        Slot { pieces }
    }

    /// Puts the tree in front of the pieces, which stand from the last one back, and leaves nothing.
    fn pour(&mut self, rest: &mut Vec<Settled>) -> Result<(), AllocError>
        ensures rest { OnOk result (reverse rest.new.items ≡ self.old ++ reverse rest.old.items) }
        ensures empty { OnOk result (self.new ≡ []) }
    {
        rest.append(&mut self.pieces)?;
        Ok(())
    }
}

/// The trees of all workers, as they become one.
#[derive(Drop)]
pub(crate) struct Filling {
    /// The pieces that are settled, in order.
    pub done: Vec<Settled>,
    /// The pieces that come after them, from the last one back.
    pub rest: Vec<Settled>,
    /// The trees that are not in their places yet, by number.
    pub slots: Vec<Slot>,
}

impl Filling {
    /// Brings the tree of a number into its place, which was next.
    fn fill(&mut self, number: u64) -> Result<(), AllocError>
        requires { number < length self.old.slots.items }
        ensures done { OnOk result (self.new.done.items ≡ self.old.done.items) }
        ensures rest { OnOk result (reverse self.new.rest.items
            ≡ slot_at self.old.slots.items number ++ reverse self.old.rest.items) }
        ensures slots { OnOk result (self.new.slots.items
            ≡ slice_set self.old.slots.items number []) }
    {
        self.slots[number as usize].pour(&mut self.rest)?;
        Ok(())
    }

    /// The same, in the words of a filling, which it stays. No piece is lost or added.
    fn fill_place(&mut self, number: u64) -> Result<(), AllocError>
        requires { (bounds : Bounds) × (scenario : Scenario) × (seen : ℕ) × (tickets : ℕ) × (put : List Region)
            × IsFilling bounds scenario seen tickets put self.old.done.items
            (Piece.Pushed number ∷ reverse self.old.rest.items) self.old.slots.items }
        ensures filling { (bounds : Bounds) (scenario : Scenario) (seen tickets : ℕ) (put : List Region)
            → IsFilling bounds scenario seen tickets put self.old.done.items
            (Piece.Pushed number ∷ reverse self.old.rest.items) self.old.slots.items
            → OnOk result (IsFilling bounds scenario seen tickets put self.new.done.items
            (reverse self.new.rest.items) self.new.slots.items) }
        ensures pieces { OnOk result
            (length self.new.rest.items + sum_by length self.new.slots.items
            ≡ length self.old.rest.items + sum_by length self.old.slots.items) }
        ensures done { OnOk result (self.new.done.items ≡ self.old.done.items) }
    {
        self.fill(number)?;
        Ok(())
    }

    /// Settles what is next, until a branch is left: that branch, and whether it was tried. None where
    /// nothing is left.
    pub fn next_left(&mut self) -> Result<Option<(Branch, bool)>, AllocError>
        requires { (bounds : Bounds) × (scenario : Scenario) × (seen : ℕ) × (tickets : ℕ) × (put : List Region)
            × IsFilling bounds scenario seen tickets put self.old.done.items
            (reverse self.old.rest.items) self.old.slots.items }
        ensures some { (bounds : Bounds) (scenario : Scenario) (seen tickets : ℕ) (put : List Region)
            → IsFilling bounds scenario seen tickets put self.old.done.items
            (reverse self.old.rest.items) self.old.slots.items
            → IfOk result (λ next. IfSome next (λ left.
            IsFilling bounds scenario seen tickets put self.new.done.items
            (Piece.Todo left.0 left.1 ∷ reverse self.new.rest.items) self.new.slots.items)) }
        ensures none { (bounds : Bounds) (scenario : Scenario) (seen tickets : ℕ) (put : List Region)
            → IsFilling bounds scenario seen tickets put self.old.done.items
            (reverse self.old.rest.items) self.old.slots.items
            → IfOk result (λ next. IfNone next
            (IsFilling bounds scenario seen tickets put self.new.done.items [] self.new.slots.items)) }
        ensures left { (put : List Region) → OnOk result
            (left_in (front put self.new.done.items) ≡ left_in (front put self.old.done.items)) }
        ensures fewer { IfOk result (λ next. IfSome next (λ _.
            length self.new.rest.items + sum_by length self.new.slots.items
            < length self.old.rest.items + sum_by length self.old.slots.items)) }
    {
        while let Some(piece) = self.rest.pop() {
            match piece.into_piece() {
                Piece::Todo { branch, tried } => return Ok(Some((branch, tried))),
                Piece::Pushed(number) => self.fill_place(number)?,
                Piece::Done(node) => self.done.push(Settled::done(node))?,
            }
        }
        Ok(None)
    }

    /// Settles a tree that stood next, of which the pieces stand from the last one back.
    pub fn settle(&mut self, mut pieces: Vec<Settled>) -> Result<(), AllocError>
        ensures done { OnOk result (self.new.done.items ≡ self.old.done.items ++ reverse pieces.items) }
        ensures rest { OnOk result (self.new.rest.items ≡ self.old.rest.items) }
        ensures slots { OnOk result (self.new.slots.items ≡ self.old.slots.items) }
    {
        pieces.reverse();
        self.done.append(&mut pieces)?;
        Ok(())
    }
}
