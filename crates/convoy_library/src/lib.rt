//! Convoy as a library: the crates that a caller names, under one name (docs/CALLING.md).
#![tactic(auto)]

pub use convoy_branch as branch;
pub use convoy_ceiling as ceiling;
pub use convoy_certificate as certificate;
pub use convoy_checker as checker;
pub use convoy_incumbent as incumbent;
pub use convoy_intervals as intervals;
pub use convoy_laws as laws;
pub use convoy_leads as leads;
pub use convoy_ledger as ledger;
pub use convoy_machine as machine;
pub use convoy_origin as origin;
pub use convoy_packets as packets;
pub use convoy_scenario as scenario;
pub use convoy_scenario_lines as scenario_lines;
pub use convoy_seek as seek;
pub use convoy_share as share;
pub use convoy_sim as sim;
pub use convoy_stamps as stamps;
pub use convoy_timeline as timeline;
pub use convoy_times as times;
pub use convoy_toml as scenario_toml;
pub use convoy_toml_writer as scenario_text;
