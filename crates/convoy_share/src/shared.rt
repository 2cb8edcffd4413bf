ghost use Rattle.std.specs.Prelude.{◌≡◌};

use convoy_branch::{Bounds, Limit};
use convoy_incumbent::Board;
use convoy_ledger::Ledger;
use convoy_origin::Origin;
use convoy_packets::Instance;
use std::alloc::Global;
use std::sync::atomic::AtomicBool;

/// What all workers of a search share: the instance, the bounds by which they go, how far the search
/// goes, the board, the ledger, and how far the owner is.
#[derive(Clone, Copy)]
pub(crate) struct Shared<'a> {
    pub alloc: Global,
    pub instance: &'a Instance,
    /// The instance with the one of which bounds are asked.
    pub origin: &'a Origin<'a>,
    pub bounds: Bounds,
    pub limit: Limit,
    pub board: &'a Board,
    pub ledger: &'a Ledger,
    /// Whether the owner has taken the root, and whether it has ended. Nothing that a search promises
    /// rests on either.
    pub begun: &'a AtomicBool,
    pub ended: &'a AtomicBool,
    /// How many workers there are.
    pub workers: u32,
    ghost of_scenario: { board.now.scenario ≡ instance.now },
    ghost same: { origin.now ≡ instance.now },
}
