//! What would become of the greatest latency if one thing were different: each change of a scenario is
//! tried by a search, and a table tells what each saves.
#![tactic(auto)]

pub use answering::what_if_answer;
pub use convoy_tables::Format;
pub use drafting::change;
pub use kinds::Change;
pub use listing::changes_of;
pub use rows::{what_if, what_if_by};
pub use tried::{Searched, Tried};

mod answering;
mod cells;
pub mod change_laws;
mod drafting;
mod folding;
mod kinds;
mod listing;
mod placing;
mod rows;
mod table;
mod tried;
mod trying;
