//! A tree that one worker is searching.

ghost use Rattle.std.specs.Prelude.{◌≡◌, ◌≤◌, ◌<◌, ◌+◌, [], ◌∷◌, ◌++◌, length, reverse};
ghost use Rattle.std.specs.Prelude.{IfNone, IfOk, IfSome, OnOk};
ghost use Rattle.convoy_share.specs.Growing.{pieces_in};
ghost use Rattle.convoy_share.specs.Pieces.{left_regions};
ghost use Rattle.convoy_share.specs.Turns.{parted};

use super::piece::{Piece, Settled};
use convoy_certificate::Node;
use convoy_regions::Branch;
use std::alloc::{AllocError, Global};

/// A tree that is being searched: its pieces are the work, and then what is written.
#[derive(Drop)]
pub(crate) struct Growing {
    /// The pieces that are still to be looked at. What is looked at first stands last.
    pub work: Vec<Piece>,
    /// The pieces that come after them in the tree, from the last one back.
    pub written: Vec<Settled>,
}

impl Growing {
    /// A branch that nobody has taken up.
    pub fn of(alloc: Global, branch: Branch, tried: bool) -> Result<Growing, AllocError>
        ensures { IfOk result (λ growing.
            (growing.work.items ≡ Piece.Todo branch tried ∷ []) × (growing.written.items ≡ [])) }
    {
        let mut work = Vec::new(alloc);
        work.push(Piece::Todo { branch, tried })?;
        Ok(Growing {
            work,
            written: Vec::new(alloc),
        })
    }

    /// The last branch that is left among the work, and whether it was tried. What stands behind it is
    /// written.
    pub fn next(&mut self) -> Result<Option<(Branch, bool)>, AllocError>
        ensures some { IfOk result (λ next. IfSome next (λ left. pieces_in self.old
            ≡ self.new.work.items ++ Piece.Todo left.0 left.1 ∷ reverse self.new.written.items)) }
        ensures fewer { IfOk result (λ next. IfSome next (λ left.
            length self.new.work.items < length self.old.work.items)) }
        ensures none { IfOk result (λ next. IfNone next
            (pieces_in self.old ≡ reverse self.new.written.items)) }
        ensures left { OnOk result (left_regions (reverse self.new.written.items)
            ≡ left_regions (reverse self.old.written.items)) }
    {
        while let Some(piece) = self.work.pop() {
            match piece {
                Piece::Todo { branch, tried } => return Ok(Some((branch, tried))),
                Piece::Done(node) => self.written.push(Settled::done(node))?,
                Piece::Pushed(number) => self.written.push(Settled::pushed(number))?,
            }
        }
        Ok(None)
    }

    /// A node comes in the place of a branch.
    pub fn close(&mut self, node: Node) -> Result<(), AllocError>
        ensures pieces { OnOk result (pieces_in self.new
            ≡ self.old.work.items ++ Piece.Done node ∷ reverse self.old.written.items) }
        ensures few { OnOk result (self.new.work.items ≡ self.old.work.items) }
        ensures left { OnOk result (left_regions (reverse self.new.written.items)
            ≡ left_regions (reverse self.old.written.items)) }
    {
        self.written.push(Settled::done(node))?;
        Ok(())
    }

    /// A split comes in the place of a branch, with what became of its first half, and its second half,
    /// which may have been tried.
    pub fn part(
        &mut self,
        split: Node,
        first: Piece,
        second: Branch,
        tried: bool,
    ) -> Result<(), AllocError>
        ensures pieces { OnOk result (pieces_in self.new
            ≡ self.old.work.items ++ (parted split first second tried ++ reverse self.old.written.items)) }
        ensures few { OnOk result (length self.new.work.items ≤ length self.old.work.items + 3) }
        ensures written { OnOk result (self.new.written.items ≡ self.old.written.items) }
    {
        self.work.push(Piece::Done(split))?;
        self.work.push(first)?;
        self.work.push(Piece::Todo {
            branch: second,
            tried,
        })?;
        Ok(())
    }

    /// The branch stays left.
    pub fn leave(&mut self, alloc: Global, branch: Branch, tried: bool) -> Result<(), AllocError>
        ensures pieces { OnOk result (pieces_in self.new
            ≡ self.old.work.items ++ Piece.Todo branch tried ∷ reverse self.old.written.items) }
        ensures few { OnOk result (self.new.work.items ≡ self.old.work.items) }
        ensures left { OnOk result (left_regions (reverse self.new.written.items)
            ≡ branch.region ∷ left_regions (reverse self.old.written.items)) }
    {
        self.written.push(Settled::left(alloc, branch, tried)?)?;
        Ok(())
    }
}
