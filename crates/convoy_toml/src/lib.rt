//! Scenario texts, which are TOML: the reader of a scenario, whose times may be written as durations and
//! whose links several in one table, and of the schedule and the order of its ties where they are given.
#![tactic(auto)]

pub use agreements::{Agreement, with_agreements};
pub use around::{Around, asked_around, span_asked, span_of};
pub use asked::Asked;
pub use bundle::Bundle;
pub use cases::{MOST_CASES, cases_of_text, targets_of_text};
pub use copying::{copy_agreements, copy_ends, copy_name, copy_names};
pub use deadlines::{GREATEST_DEADLINE, deadlines_of_written};
pub use divisor::common_divisor;
pub use durations::{time_of_table, unit_of_table};
pub use input::Input;
pub use links::{MOST_WRITTEN_LINKS, links_of_bundle};
pub use outside::LinkShare;
pub use placed::{Placed, ScenarioTable};
pub use plain::PlainNumber;
pub use read::{
    acceptances_of_text, accepts_by_text, outage_of_text, read_table, read_toml, read_toml_asked,
    scenario_of_written,
};
pub use replies::reply_of_text;
pub use shape::{scenario_of_table, setting_of_table};
pub use share::WHOLE_SHARE;
pub use slow::{scenario_without_slow, written_of_table};
pub use target::TargetKey;
pub use times::{bundles_of, draft_of_written, tick_of};
pub use ways::{Way, ways_without_link};
pub use written::{
    LinkEnds, WrittenAcceptance, WrittenAgreement, WrittenInput, WrittenLink, WrittenMulticast,
    WrittenRange, WrittenScenario, WrittenTarget, WrittenTime,
};

mod agreements;
mod around;
mod asked;
mod bundle;
mod cases;
mod copying;
mod deadlines;
mod divisor;
mod durations;
mod group_tables;
mod input;
mod keys;
mod link_tables;
mod links;
mod messages;
mod outside;
mod placed;
mod plain;
mod read;
mod replies;
mod shape;
mod share;
mod slow;
mod target;
pub mod text_laws;
mod times;
mod ways;
mod written;
