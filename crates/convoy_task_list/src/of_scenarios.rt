use convoy_commands::TimeUnit;
use convoy_outages::Outage;

/// What a scenario answers without a search.
#[derive(Drop)]
pub enum ScenarioTask {
    /// The latency that the schedule of least delays attains.
    First,
    /// The scenario that is asked about, as a text with the schedule of its least delays.
    Text,
    /// The ceiling, that through outages where these are asked for, and traffic that is sought by so many simulations at
    /// most.
    Ceiling {
        simulations: u64,
        outage: Option<Outage>,
        unit: Option<TimeUnit>,
    },
}
