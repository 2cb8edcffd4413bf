//! Hints for plans: what is wrong with a text that is read as one, and where, for the person who wrote it
//! (docs/HINTS.md). A hint is found by reading the text once more, and is an `Err` only where memory ran out. No answer
//! and no fault of a command rests on one.
#![tactic(auto)]

pub use plan_hints::hint_for_plan;

mod groups;
mod keys;
mod lists;
mod names;
mod plan_hints;
mod ranges;
mod shared;
mod sites;
