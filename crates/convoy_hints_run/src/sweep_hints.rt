//! What to write where the keys of a scenario can't be given the values of a sweep.

use convoy_commands::SweepCause;
use std::alloc::{AllocError, Global};

/// The hint for such a fault.
pub fn hint_for_sweep(alloc: Global, cause: SweepCause) -> Result<String, AllocError> {
    let advice = match cause {
        SweepCause::UnknownKey =>
            "a key is delay, MESSAGE.at, MESSAGE.until, or FROM-TO.least or FROM-TO.most of a link in the scenario, with the names that are written there",
        SweepCause::SeveralTables =>
            "that key can be read as one of several links: give a group of it another name",
        SweepCause::NoIssue =>
            "with '--envelope' the key is MESSAGE.at: leave '--envelope' out for other keys",
        SweepCause::MixedTimes =>
            "write the values as the scenario writes its times, in ticks or as '10 ms', or give the scenario a 'tick'",
        SweepCause::NotWhole =>
            "each value is to be a whole number of ticks: write the key 'tick' with a shorter one",
        SweepCause::BeyondLimits => "a value is at least 0, and at most 4294967295 ticks",
        SweepCause::NoStep => "write a step above 0, as in '0..100/10'",
        SweepCause::Backwards => "write the lesser value first, as in '0..100/10'",
        SweepCause::TooManyValues =>
            "a sweep has at most 10000 rows: take a longer step, or fewer values",
        SweepCause::OneValue =>
            "with '--envelope' there are two values at least: write a greater last value or a shorter step",
        SweepCause::KeyTwice => "the two keys are one: leave one out",
        SweepCause::NoScenario(_) =>
            "with that value the text is that of no scenario: try the values in the text itself, and 'convoy latency' tells why",
    };
    format!(in alloc; "hint: {advice}\n")
}
