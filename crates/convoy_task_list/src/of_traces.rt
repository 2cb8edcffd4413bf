use convoy_commands::TimeUnit;
use convoy_fits_told::Skew;
use convoy_ranges::RangesAsked;
use convoy_tables::Format;

/// What is asked of a trace of a real run.
#[derive(Drop)]
pub enum TraceTask {
    /// Whether it is one of a run of the scenario that is wanted, by clocks that are right within the skew.
    Fits {
        skew: Skew,
        unit: Option<TimeUnit>,
    },
    /// The ranges of its links by these rules, whose numbers without a unit are of this one.
    Ranges {
        rules: RangesAsked,
        unit: TimeUnit,
    },
    /// Its links, as a table in that format, with times in this unit.
    Table {
        format: Format,
        unit: TimeUnit,
    },
    /// Its links beside the ranges of the scenario that is wanted, as a table in that format.
    Beside {
        format: Format,
        unit: Option<TimeUnit>,
    },
}
