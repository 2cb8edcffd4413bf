//! Seeking: schedules of a great latency, found by patterns and by chance. No proof rests on how they
//! are found.
#![tactic(auto)]

pub use chance::Chance;
pub use comings::Comings;
pub use moves::change;
pub use pattern::{End, Pattern};
pub use score::Score;
pub use seeking::seek;

mod chance;
mod climb;
mod comings;
mod meeting;
mod moves;
mod pattern;
mod pruning;
mod rival;
mod score;
mod seeker;
mod seeking;
mod starts;
mod sweep;
mod ties;
mod times;
mod waits;
