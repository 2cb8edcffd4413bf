//! Scenarios as text: the document in TOML of a scenario with a schedule, which `convoy_toml` reads as both again.
#![tactic(auto)]

pub use writing::write_toml;

mod lists;
mod writing;
pub mod written_text_laws;
