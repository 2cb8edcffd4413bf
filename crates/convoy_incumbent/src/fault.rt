use super::board::{Board, Hand};
use thiserror::Error;

/// Why a board was not closed. The board and the hand come back as they were.
#[derive(Debug, Drop, Error)]
pub enum CloseFault {
    /// The hand has not the whole share, so other hands are out.
    #[error("other hands are out")]
    HandsOut(Board, Hand),
    /// Memory ran out for the copy of the record.
    #[error("out of memory")]
    Memory(Board, Hand),
}
