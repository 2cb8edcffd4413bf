//! What a person wrote, right or wrong: the draft of a scenario, with the place of each message and each link
//! in its text; and words of a text, quoted. What keeps a table from being read is told here as well: a key
//! that is wrong, or a time that is no whole number of ticks. Hints are made of this (docs/HINTS.md). An
//! `Err` means that memory ran out. No answer and no fault of a command rests on it.
#![tactic(auto)]

pub use counting::noun;
pub use deadlines::hint_for_deadline;
pub use durations::{Length, shown_time, shown_written};
pub use headers::header_line;
pub use hint::Hint;
pub use near::nearest;
pub use other_keys::is_word_for_clients;
pub use part::{Part, TextKind};
pub use quoting::{Names, Ordinal, Quoted};
pub use scenario_text::ScenarioText;
pub use shape::hint_for_shape;
pub use sketch::{Sketch, sketch_of_draft, words_of};
pub use spot::{Spot, spot_at};
pub use tick_causes::with_cause_of_tick;
pub use times::{hint_for_mixture, hint_for_part_of_tick, hint_for_plain_number};

mod counting;
mod deadlines;
mod durations;
mod fields;
mod headers;
mod hint;
mod near;
mod other_keys;
mod part;
mod quoting;
mod scenario_text;
mod shape;
mod sketch;
mod spot;
mod tick_causes;
mod times;
