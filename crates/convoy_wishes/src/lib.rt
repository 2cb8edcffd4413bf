//! Wish runs: schedules of a box that do what an open case of it wants, as far as they can. No proof rests on
//! how they are found (docs/LEADS.md, "Wish runs").
#![tactic(auto)]

pub use wishing::wish;

mod ends;
mod event;
mod latest;
mod laying;
mod low;
mod moments;
mod order_wishes;
mod scene;
mod tick_wishes;
mod ties;
mod wishing;
