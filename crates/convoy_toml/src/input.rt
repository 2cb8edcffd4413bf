use super::outside::LinkShare;
use super::plain::PlainNumber;
use convoy_scenario::{Scenario, TimeUnit};

/// What a scenario text holds.
#[derive(Drop)]
pub struct Input {
    pub scenario: Scenario,
    /// The delays of one run in the order of the packets, where the text gives them.
    pub schedule: Option<Vec<i64>>,
    /// The ranks of the moments of that run, where the text gives them.
    pub order: Option<Vec<i64>>,
    /// The deadlines of its messages, by their numbers, in ticks: the most that a latency may be; none for a message
    /// that has none. Deadlines are no part of the scenario.
    pub deadlines: Vec<Option<u32>>,
    /// The shares of packets outside their ranges that its tables of links write, in their order. They are no part of
    /// the scenario.
    pub shares: Vec<LinkShare>,
    /// The unit in which the text writes D, where it writes that as a duration.
    pub unit: Option<TimeUnit>,
    /// The first of its times that is a plain number beside durations, for who wants to say what that counts: no
    /// contract speaks of it.
    pub plain: Option<PlainNumber>,
}
