//! What a tree says once every place is filled.

ghost use Rattle.std.specs.Prelude.{◌≡◌, ℕ, List, IfOk};
ghost use Rattle.std.specs.List.{All, list_any};
ghost use Rattle.convoy_regions.specs.Regions.{Region};
ghost use Rattle.convoy_branch.specs.Uppers.{IsUpperOf};
ghost use Rattle.convoy_share.specs.Pieces.{IsPiece, IsRaisedOver, is_left, left_regions, nodes_in};

use super::piece::{Kept, Settled};
use convoy_branch::Bounds;
use convoy_branch::front_laws::{uppers_begin, uppers_raised};
use convoy_certificate::Node;
use convoy_origin::Origin;
use std::alloc::{AllocError, Global};

/// Whether a branch is left.
pub(crate) fn has_left(pieces: &[Settled]) -> bool
    ensures { result ≡ list_any is_left pieces.now }
{
    for piece in pieces {
        if piece.is_left() {
            return true;
        }
    }
    false
}

/// The nodes for which tickets were spent.
pub(crate) fn nodes_of(alloc: Global, pieces: &[Settled]) -> Result<Vec<Node>, AllocError>
    ensures { IfOk result (λ nodes. nodes.items ≡ nodes_in pieces.now) }
{
    let mut nodes = Vec::with_capacity(alloc, pieces.len())?;
    for piece in pieces {
        if let Some(node) = piece.node() {
            nodes.push(node)?;
        }
    }
    Ok(nodes)
}

/// The upper bound of all latencies, in ticks, of a search by those bounds where that is the best one
/// and the branches among the pieces are left.
pub(crate) fn upper_over(
    alloc: Global,
    origin: &Origin,
    bounds: Bounds,
    pieces: &[Settled],
    seen: u32,
) -> Result<u32, AllocError>
    requires pieces { (best : ℕ) × (put : List Region) × All (IsPiece origin.now best put) pieces.now }
    ensures { IfOk result (λ upper. IsUpperOf bounds origin.now seen (left_regions pieces.now) upper) }
{
    uppers_begin();
    uppers_raised();
    let mut upper = seen;
    for piece in pieces {
        upper = raised_over(alloc, origin, piece, upper, bounds)?;
    }
    Ok(upper)
}

/// What a piece raises an upper bound to, in ticks: a branch that is left, and nothing else.
fn raised_over(
    alloc: Global,
    origin: &Origin,
    piece: &Settled,
    upper: u32,
    bounds: Bounds,
) -> Result<u32, AllocError>
    requires piece { (best : ℕ) × (put : List Region) × IsPiece origin.now best put piece.now }
    ensures { IfOk result
        (λ raised. IsRaisedOver bounds origin.now piece.now upper raised) }
{
    match piece.kept() {
        Kept::Todo { branch, .. } => bounds.raised(alloc, origin, branch, upper),
        Kept::Done(_) | Kept::Pushed(_) => Ok(upper),
    }
}
