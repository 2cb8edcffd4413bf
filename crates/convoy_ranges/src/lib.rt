//! Tables of measured round trips as links: for each pair of places the range of what one packet between them may take,
//! by the distance and the greatest round trip.
#![tactic(auto)]

pub use answering::ranges_text;
pub use asked::{RangeRules, RangesAsked, Speed, USUAL_TICK};
pub use fault::{Cause, MOST_BYTES, MOST_PAIRS, RangesFault};
pub use links::told;
pub use ranges::round_trip_of;

mod answering;
mod asked;
mod cells;
mod fault;
mod links;
mod names;
mod pairs;
pub mod range_laws;
mod ranges;
mod reading;
mod rows;
mod sighting;
