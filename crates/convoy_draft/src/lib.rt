//! What a text says of a scenario before it is known to be one: names, numbers of ticks, durations, the
//! draft, which has names in place of numbers, and the first rule that a draft breaks.
#![tactic(auto)]

pub use checks::{all_have_ranges, check, delay_ticks, is_named_alike, is_within, ticks};
pub use draft::{DraftLink, DraftMulticast, DraftScenario};
pub use duration::{Duration, LONGEST_DURATION, MOST_UNITS, TimeUnit};
pub use fault::{Key, Limit, ScenarioFault};
pub use limits::{
    GREATEST_AT, GREATEST_DELAY, GREATEST_UNTIL, GREATEST_WHOLE_DELAY, LONGEST_NAME, LONGEST_WAIT,
    MOST_GROUPS, MOST_LINKS, MOST_MULTICASTS, MOST_PLACES,
};
pub use memory::AllocResult;
pub use name::Name;
pub use time::Time;

mod checks;
mod draft;
mod duration;
mod fault;
mod limits;
mod memory;
mod name;
mod time;
