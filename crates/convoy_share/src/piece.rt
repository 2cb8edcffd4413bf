//! The pieces of which trees under way are made.

ghost use Rattle.std.specs.Prelude.{◌≡◌, IfOk};
ghost use Rattle.convoy_share.specs.Kept.{piece_of};
ghost use Rattle.convoy_share.specs.Pieces.{done_node, is_left};

use convoy_certificate::Node;
use convoy_regions::Branch;
use std::alloc::{AllocError, Global};
use std::marker::Model;

/// A piece of a tree that is being searched, in prefix order.
#[derive(Drop)]
pub enum Piece {
    /// A node, for which a ticket was spent.
    Done(Node),
    /// A branch that is left. `tried` tells that its run is known to have no greater latency than the
    /// best one.
    Todo { branch: Branch, tried: bool },
    /// The number under which a branch was put into the deque: its tree belongs here.
    Pushed(u64),
}

/// A piece in the list of a whole tree, which may be long: it takes 16 bytes, and a branch that is left
/// lies apart. Contracts see the piece that it is.
#[derive(Drop)]
pub(crate) struct Settled(Kept);

/// What stands for a piece in a long list.
#[derive(Drop)]
pub(crate) enum Kept {
    Done(Node),
    Todo { tried: bool, branch: Box<Branch> },
    Pushed(u64),
}

const _: () = prove!(size_of::<Settled>() <= 16);

impl Model for Settled {
    ghost use Rattle.convoy_share.specs.declared.piece.Piece.{Piece};
    ghost use Rattle.convoy_share.specs.Kept.{piece_of};

    ghost Value = { Piece };

    ghost view = { λ s. piece_of s.0 };
}

impl Settled {
    /// A node, for which a ticket was spent.
    pub fn done(node: Node) -> Settled
        ensures { result ≡ Piece.Done node }
    {
        Settled(Kept::Done(node))
    }

    /// The place of a tree.
    pub fn pushed(number: u64) -> Settled
        ensures { result ≡ Piece.Pushed number }
    {
        Settled(Kept::Pushed(number))
    }

    /// A branch that is left.
    pub fn left(alloc: Global, branch: Branch, tried: bool) -> Result<Settled, AllocError>
        ensures { IfOk result (λ settled. settled ≡ Piece.Todo branch tried) }
    {
        let branch = Box::new(alloc, branch)?;
        Ok(Settled(Kept::Todo { tried, branch }))
    }

    /// The piece that it is.
    pub fn into_piece(self) -> Piece
        ensures { result ≡ self }
    {
        match self.0 {
            Kept::Done(node) => Piece::Done(node),
            Kept::Todo { tried, branch } => Piece::Todo {
                branch: Box::into_inner(branch),
                tried,
            },
            Kept::Pushed(number) => Piece::Pushed(number),
        }
    }

    /// What stands for it.
    pub fn kept(&self) -> &Kept
        ensures { piece_of result.now ≡ self.now }
    {
        &self.0
    }

    /// Whether it is a branch that is left.
    pub fn is_left(&self) -> bool
        ensures { result ≡ is_left self.now }
    {
        matches!(self.0, Kept::Todo { .. })
    }

    /// The node, if it is one.
    pub fn node(&self) -> Option<Node>
        ensures { result ≡ done_node self.now }
    {
        match self.0 {
            Kept::Done(node) => Some(node),
            Kept::Todo { .. } | Kept::Pushed(_) => None,
        }
    }
}
