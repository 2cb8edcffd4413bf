use super::ledger::{Clerk, Ledger};
use thiserror::Error;

/// Other clerks are out: the ledger and the clerk come back as they were.
#[derive(Debug, Drop, Error)]
#[error("other clerks are out")]
pub struct ClerksOut(pub Ledger, pub Clerk);
