//! The hint for how a run ended, by what its command line asked for and by what was read (docs/HINTS.md).
#![tactic(auto)]

pub use end::End;
pub use hinting::{Finished, greeting, reads_standard, tell_ended, write_line};
pub use kept::KeptWriter;

mod end;
mod hinting;
mod kept;
mod kind_hints;
mod other_hints;
mod sweep_hints;
mod table_hints;
mod trace_hints;
mod workflow_hints;
