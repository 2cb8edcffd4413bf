//! How far a long search has come, told on standard error, and when its time is over.
#![tactic(auto)]

pub use progress::{Progress, Screen, Together, screen_for, several_for};

mod kept_measure;
mod pace;
mod placing;
mod progress;
