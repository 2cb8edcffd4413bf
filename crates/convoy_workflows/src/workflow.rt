use convoy_causes::Cause;
use convoy_scenario::{Scenario, TimeUnit};
use convoy_toml::{LinkShare, PlainNumber};

/// What a workflow text holds (docs/FORMATS.md, "Workflow text"). Messages and groups go by number, from 0, in the order of
/// the text.
#[derive(Drop)]
pub struct Workflow {
    /// The scenario, in which a message that follows another may be issued as soon, and as late, as it may follow that.
    pub scenario: Scenario,
    /// What its messages follow, in the order of the messages.
    pub causes: Vec<Cause>,
    /// The number of the message from whose issue the target's time counts: the target, or one that does not wait and that
    /// the target follows, be it through others.
    pub origin: usize,
    /// The deadlines of its messages, by their numbers, in ticks: the most that a latency may be; none for a message
    /// that has none.
    pub deadlines: Vec<Option<u32>>,
    /// The shares of packets outside their ranges that its tables of links write, in their order.
    pub shares: Vec<LinkShare>,
    /// The unit in which the text writes D, where it writes that as a duration.
    pub unit: Option<TimeUnit>,
    /// The first of its times that is a plain number beside durations, for who wants to say what that counts: no
    /// contract speaks of it.
    pub plain: Option<PlainNumber>,
}
