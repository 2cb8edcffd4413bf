use thiserror::Error;

/// How many workers a search has at most.
pub const MOST_WORKERS: u32 = 16;

/// The share of one who holds a board or a ledger alone. Each split halves a share, so it can be split 32 times in
/// a row.
pub const WHOLE: u64 = 4_294_967_296;

/// A share of 1 can't be split.
#[derive(Clone, Copy, Debug, PartialEq, Eq, Error)]
#[error("a share of 1 can't be split")]
pub struct ShareTooSmall;
