//! The search of many workers as a machine without threads: which events are lawful, what becomes of the
//! state, and what holds once no branch is left.
#![tactic(auto)]

pub use event::Event;
pub use machine::Core;
pub use parts::WORKERS;
pub use replaying::{ReplayFault, replay};

mod event;
mod machine;
pub mod machine_laws;
mod parts;
mod replaying;
