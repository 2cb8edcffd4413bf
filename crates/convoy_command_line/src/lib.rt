//! The command line as it is told: the commands and their options, the help of each, and what to write in place of words that
//! are rejected, for the person who wrote them (docs/HINTS.md).
#![tactic(auto)]

pub use limits::MOST_SECONDS;
pub use parsing::parser;
pub use settings::GREATEST_SPAN;
pub use tips::without_tip;
pub use word_hints::hint_for_words;

mod commands;
mod help;
mod limits;
mod other_options;
mod parsing;
mod settings;
mod tips;
mod word_hints;
