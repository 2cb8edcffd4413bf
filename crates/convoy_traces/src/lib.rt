//! Traces of real runs: what happened to which message at which group, and when, read from the lines of a log for a
//! scenario, with times in ticks so fine that each is a whole number.
#![tactic(auto)]

pub use cells::{cells_of, is_blank};
pub use clock::Clock;
pub use columns::{Columns, Head, head_of};
pub use entries::{is_word, time_of};
pub use fault::{Cause, LAST_TIME, MOST_STAMP, TraceFault};
pub use numbering::{group_numbered, place_numbered};
pub use objects::row_of_object;
pub use row::{Row, row_of_cells};
pub use told::{Entry, Event, Stamp, Told, is_same_event};
pub use trace::{Trace, trace_of_text};

mod cells;
mod clock;
mod columns;
mod entries;
mod fault;
mod fine;
mod numbering;
mod objects;
mod reading;
mod row;
mod told;
mod trace;
