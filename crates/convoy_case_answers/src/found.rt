use convoy_scenario::Scenario;
use convoy_times::Measure;
use convoy_toml::PlainNumber;

/// What is found of a case. Its numbers are ticks.
#[derive(Drop)]
pub(crate) struct Found {
    /// Which case it is, from 0.
    pub number: usize,
    /// Its scenario.
    pub scenario: Scenario,
    /// The first of its times that is a plain number beside durations: no contract speaks of it.
    pub plain: Option<PlainNumber>,
    /// How its times are told.
    pub measure: Option<Measure>,
    /// The deadline of its target, where it has one.
    pub deadline: Option<u32>,
    /// In at most how many billionths of runs a packet leaves its range, where the links of its text tell that.
    pub outside: Option<u64>,
    /// What its greatest latency is at least.
    pub least: u32,
    /// What it is at most.
    pub most: u32,
    /// Whether the search for it has ended.
    pub is_proved: bool,
    /// What it is at least with what keeps its target back.
    pub late_least: u32,
    /// What it is at most with that.
    pub late_most: u32,
    /// How long the word of its group takes to a client at most, where one is named.
    pub way: Option<u16>,
    /// When the word is back at the earliest in the worst run: at once where no client is named.
    pub back_least: u32,
    /// When it is back at the latest in any run.
    pub back_most: u32,
}
