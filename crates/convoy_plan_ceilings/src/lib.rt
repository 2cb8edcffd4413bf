//! The placement of a plan's groups with the least ceilings: a choice that is safe for any traffic of the plan's kinds of
//! messages. Placements are searched one group after the other; where each placement that has the sites so far surely has a
//! ceiling that is no better than those of the best choice so far, none of them is looked at.
#![tactic(auto)]

pub use answering::{ceiling_placing_answer, plan_ceiling_answer};
pub use ceiling_choice::CeilingChoice;
pub use choosing::least_ceiling;
pub use convoy_tables::Format;
pub use target_ceiling::TargetCeiling;

mod answering;
mod bounds;
mod ceiling_choice;
pub mod ceiling_choice_laws;
mod cells;
mod choosing;
mod cutting;
mod learning;
mod measuring;
mod searching;
mod standing;
mod target_ceiling;
mod telling;
mod visiting;
