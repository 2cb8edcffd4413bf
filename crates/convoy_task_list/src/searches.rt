use convoy_best_order::Wanted;
use convoy_outages::Outage;
use convoy_sweep::{Setting, Sweep};
use convoy_tables::Format;
use convoy_toml::WrittenTime;

/// What is found in a scenario by searches. Tables are written in the format.
#[derive(Drop)]
pub enum SearchTask {
    /// A certificate of the greatest latency.
    Analyse,
    /// The greatest latency, what none is above through outages where these are asked for, and whether the ceiling of the
    /// scenario is told below it; or, in place of these two, the greatest latency where replicas so far from the leaders of
    /// their groups have to answer, where that is asked for.
    Latency {
        with_ceiling: bool,
        outage: Option<Outage>,
        accept: Option<WrittenTime>,
    },
    /// The greatest latency of each message at each group, as a table, with what none is above through outages where these
    /// are asked for, and whether each row has its ceiling.
    Survey {
        format: Format,
        with_ceilings: bool,
        outage: Option<Outage>,
    },
    /// The greatest latency of the target with each change of one thing, as a table, and whether each change that changes
    /// nothing has a row of its own.
    WhatIf {
        format: Format,
        shows_all: bool,
    },
    /// The report: a page in HTML of what other tasks answer.
    Report,
    /// How slow each link may get, and how fast, before the target's deadline is missed, or that of each message at each
    /// group, as a table; and whether the ceiling has to keep the deadline, not just the greatest latency.
    Budget {
        format: Format,
        of_all: bool,
        of_ceiling: bool,
    },
    /// The best order of the groups for the targets that are wanted, as a table, and whether the reasons why no order is
    /// better are told below it.
    Order {
        format: Format,
        wanted: Wanted,
        with_reasons: bool,
    },
    /// The scenario with its groups in the best order for the targets that are wanted, as a text.
    Listing {
        wanted: Wanted,
    },
    /// The greatest latency with each value of one key of the text, or of two, as a table; and whether a row is to speak of
    /// all times of issue from one value to the next.
    Sweep {
        format: Format,
        sweep: Sweep,
        envelope: bool,
    },
    /// The greatest latency with each value of one key of the text, as an image of a curve; and whether a mark is to speak
    /// of all times of issue from one value to the next.
    Curve {
        setting: Setting,
        envelope: bool,
    },
}
