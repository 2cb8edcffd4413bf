use convoy_outages::{LONGEST_OUTAGE, OutageFault};
use std::alloc::{AllocError, Global};

/// What to write where no ceiling through outages can be told that last so long, by an option or by the text, in one line
/// `hint: ..`.
pub fn hint_for_outage(alloc: Global, fault: OutageFault) -> Result<String, AllocError> {
    match fault {
        OutageFault::Unmeasured => String::from_str(
            alloc,
            "hint: the scenario does not say how long a tick lasts: write its key 'tick' beside 'time = \"real\"', or an outage as a number of ticks\n",
        ),
        OutageFault::TooLong => format!(in alloc;
            "hint: outages last at most {LONGEST_OUTAGE} ticks in all: write less, or the scenario in longer ticks\n"
        ),
    }
}

/// What an answer through outages that is open says, in one line `hint: ..`.
pub fn hint_for_open_through_outages(alloc: Global) -> Result<String, AllocError> {
    String::from_str(
        alloc,
        "hint: no latency is above the one through outages, and some schedule without outages has the least; whether a run through outages is later than that is not known\n",
    )
}
