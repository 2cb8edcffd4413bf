use convoy_commands::{Options, TimeUnit};
use convoy_tables::Format;

/// What is asked of a plan. The first three search, as the options say.
#[derive(Drop)]
pub enum PlanTask {
    /// The best placement and order of the groups, or so many of the best ones, as a table in that format, and whether the
    /// reasons why no order is better there are told below it.
    Table {
        format: Format,
        with_reasons: bool,
        first: Option<u16>,
        options: Options,
    },
    /// The scenario of that placement, or of the last of so many, with its groups in the best order, as a text.
    Scenario {
        first: u16,
        options: Options,
    },
    /// A certificate that this choice is the best one.
    Proof {
        options: Options,
    },
    /// The placement of the groups with the least ceilings, as a table in that format.
    Ceiling {
        format: Format,
        unit: Option<TimeUnit>,
    },
    /// The scenario of that placement, as a text.
    CeilingScenario,
    /// Whether the certificate below the plan is a valid one of it.
    Check,
}
