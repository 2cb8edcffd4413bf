//! What it is to hold a share of a whole, as the threads of a search hold shares of what they use together, and
//! how many of them there may be.
#![tactic(auto)]

pub use shares::{MOST_WORKERS, ShareTooSmall, WHOLE};

mod shares;
