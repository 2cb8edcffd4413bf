use convoy_scenario::Scenario;
use convoy_survey::{Surveyed, Times};
use convoy_toml::PlainNumber;

/// What a report shows of the worst run of a message at a group.
#[derive(Drop)]
pub enum Shown {
    /// Why it is so late, in words, and its image.
    Explained {
        explanation: Vec<u8>,
        image: Vec<u8>,
    },
    /// What the search for it found, which did not end.
    Found(Vec<u8>),
}

/// The worst run of a message at a group, both by number.
#[derive(Drop)]
pub struct Run {
    pub message: usize,
    pub group: usize,
    pub shown: Shown,
}

/// All that a report tells.
#[derive(Drop)]
pub struct Report {
    pub scenario: Scenario,
    /// By how many ticks all is asked around targets, where it is asked so.
    pub span: Option<u32>,
    /// The deadlines of the messages by their numbers, in ticks.
    pub deadlines: Vec<Option<u32>>,
    /// How times are told.
    pub times: Times,
    /// What the survey found.
    pub rows: Vec<Surveyed>,
    /// The worst runs that are shown.
    pub runs: Vec<Run>,
    /// The table of what each change saves.
    pub changes: Vec<u8>,
    /// The digest of the scenario, where `scenario` tells it.
    pub digest: Option<String>,
    /// The plain number beside durations of the text, of which no contract speaks.
    pub plain: Option<PlainNumber>,
}
