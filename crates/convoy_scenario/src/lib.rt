//! Scenarios: how time goes, the greatest delay, groups, multicasts and one target, made of a draft,
//! which has names in place of numbers.
#![tactic(auto)]

pub use comparing::{agree_in, difference};
pub use convoy_draft::{
    AllocResult, DraftLink, DraftMulticast, DraftScenario, Duration, GREATEST_AT, GREATEST_DELAY,
    GREATEST_UNTIL, GREATEST_WHOLE_DELAY, Key, LONGEST_DURATION, LONGEST_NAME, LONGEST_WAIT, Limit,
    MOST_GROUPS, MOST_LINKS, MOST_MULTICASTS, MOST_PLACES, MOST_UNITS, Name, ScenarioFault, Time,
    TimeUnit, is_named_alike, is_within,
};
pub use link::{Link, is_same_sender};
pub use part::Part;
pub use parts::{LinkParts, MessageParts, ScenarioParts};
pub use scenario::Scenario;
pub use sender::Sender;

mod comparing;
mod link;
pub mod lookup;
pub mod naming;
mod numbering;
mod part;
mod parts;
mod room;
mod same_parts;
mod scenario;
pub mod scenario_laws;
mod sender;
pub mod widened_laws;
