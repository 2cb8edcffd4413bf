//! The lines of a scenario in a certificate: what writes them, and what reads them.
#![tactic(auto)]

pub use line_fault::{Expected, LineFault};
pub use line_writing::write_lines;
pub use scenario_lines::read_lines;
pub use version::Version;

mod line_fault;
mod line_forms;
mod line_writing;
pub mod scenario_line_laws;
mod scenario_lines;
mod version;
