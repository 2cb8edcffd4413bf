//! Scenarios around their targets: what is asked by who knows nothing of when the other messages are issued.
#![tactic(auto)]

pub use making::{around, around_at, is_span};

pub mod around_laws;
mod making;
