//! Kinds of messages, of which there may be many more than a scenario has messages: the reader of their texts, the scenario of
//! any two of them, and the ceiling of each kind at each group that it goes to, in traffic of all of them.
#![tactic(auto)]

pub use ceiling_row::CeilingRow;
pub use fault::{KindsFault, KindsKey, KindsLimit};
pub use kinds::{Kind, Kinds};
pub use limits::{MOST_KINDS, MOST_TABLES};
pub use pairs::pair_of;
pub use read::read_kinds;
pub use rows::ceiling_rows;

mod ceiling_row;
mod checks;
mod fault;
pub mod kind_laws;
mod kinds;
mod limits;
mod numbers;
mod pairs;
mod read;
mod rows;
mod shape;
mod slowest;
mod written;
