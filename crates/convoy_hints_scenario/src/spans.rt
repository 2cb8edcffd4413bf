//! What is wrong with the span by which all is asked around a target, where the text itself is right.

use convoy_hints_sketch::{Hint, Length};
use convoy_scenario::{DraftScenario, Duration, LONGEST_WAIT, Time};
use convoy_toml::{Around, WrittenTime};
use std::alloc::{AllocError, Global};

/// That the span is a duration, and no tick has a length; None where it is none.
pub(crate) fn hint_for_span(alloc: Global, draft: &DraftScenario, around: Option<Around>) -> Hint {
    match around {
        Some(Around::By(span)) => hint_for_time(alloc, draft.time, span),
        Some(Around::Greatest) | None => Ok(None),
    }
}

/// The same of a span that is given.
fn hint_for_time(alloc: Global, time: Time, span: WrittenTime) -> Hint {
    match span {
        WrittenTime::Lasting(duration) => hint_for_lasting(alloc, time, duration).map(Some),
        WrittenTime::Count(_) => Ok(None),
    }
}

fn hint_for_lasting(alloc: Global, time: Time, duration: Duration) -> Result<String, AllocError> {
    let length = Length(duration);
    let way_out = match time {
        Time::Ticks => "time goes in whole ticks: write 'time = \"real\"' and 'tick = \"..\"'",
        Time::Real => "nothing says how long a tick is: write 'tick = \"..\"'",
    };
    format!(in alloc;
        "'--around' is the duration {length}, and {way_out} in the scenario, or give a number of ticks"
    )
}

/// That the span is longer than it may be; None where no span is asked for.
pub(crate) fn hint_for_long_span(
    alloc: Global,
    tick: Option<Duration>,
    around: Option<Around>,
) -> Hint {
    let Some(around) = around else {
        return Ok(None);
    };
    let span = match around {
        Around::Greatest => "'--around' is the greatest delay, and may be",
        Around::By(_) => "'--around' may be",
    };
    let most = LONGEST_WAIT / 3;
    match tick {
        Some(tick) => {
            let tick = Length(tick);
            format!(in alloc;
                "{span} at most {most} ticks of {tick}: choose a larger tick, or give a shorter span, as '--around=1000'"
            ).map(Some)
        }
        None => format!(in alloc;
            "{span} at most {most} ticks: give a shorter span, as '--around=1000'"
        ).map(Some),
    }
}
