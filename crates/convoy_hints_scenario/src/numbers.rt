use convoy_hints_sketch::{Hint, Length, Part, Sketch, shown_time, shown_written};
use convoy_scenario::{
    DraftLink, DraftMulticast, DraftScenario, Duration, GREATEST_AT, GREATEST_DELAY, LONGEST_WAIT,
    Limit, MOST_GROUPS, MOST_MULTICASTS, MOST_PLACES, Time,
};
use convoy_toml::{MOST_WRITTEN_LINKS, WrittenScenario, WrittenTime, tick_of};
use std::alloc::{AllocError, Global};

/// Which number is outside its limit, and what the limit is.
pub(crate) fn hint_for_limit(alloc: Global, sketch: &Sketch<'_>, limit: Limit) -> Hint {
    let draft = &sketch.draft;
    match limit {
        Limit::Delay => hint_for_delay(alloc, draft).map(Some),
        // Of the least delay of what goes by no link there is nothing in a draft.
        Limit::Least => Ok(None),
        Limit::Groups => {
            let count = draft.groups.len();
            format!(in alloc; "there are {count} groups, and there may be 1 to {MOST_GROUPS}").map(
                Some,
            )
        }
        Limit::Places => {
            let count = draft.places.len();
            format!(in alloc;
                "there are {count} places, and there may be at most {MOST_PLACES}"
            ).map(Some)
        }
        Limit::Multicasts => {
            let count = draft.multicasts.len();
            format!(in alloc;
                "there are {count} multicasts, and there may be 1 to {MOST_MULTICASTS}"
            ).map(Some)
        }
        Limit::At => hint_for_at(alloc, sketch),
        Limit::Until => hint_for_until(alloc, sketch),
        Limit::Link => hint_for_range(alloc, sketch),
        // Nor is there what replicas need to agree.
        Limit::Agree => Ok(None),
        Limit::Tick if draft.time == Time::Ticks => String::from_str(
            alloc,
            "a tick has a length where time is real, and here time goes in whole ticks",
        )
        .map(Some),
        Limit::Tick => hint_for_long_tick(alloc, draft.tick),
    }
}

fn hint_for_delay(alloc: Global, draft: &DraftScenario) -> Result<String, AllocError> {
    let (delay, greatest) = (draft.delay, draft.time.greatest_delay());
    if delay <= i64::from(greatest) {
        return format!(in alloc;
            "'delay' is {delay}, and may be 1 to {greatest}: a packet takes at least a tick"
        );
    }
    if draft.time == Time::Ticks && delay <= i64::from(GREATEST_DELAY) {
        return hint_for_whole_ticks(alloc, delay, greatest);
    }
    let Some(tick) = draft.tick else {
        return hint_for_many_ticks(alloc, delay, greatest);
    };
    match larger_tick(delay, tick, greatest) {
        Some(larger) => hint_for_larger_tick(alloc, delay, greatest, tick, larger),
        None => hint_for_many_ticks(alloc, delay, greatest),
    }
}

/// That the greatest delay is too many whole ticks, and not too many where time is real.
fn hint_for_whole_ticks(alloc: Global, delay: i64, greatest: u16) -> Result<String, AllocError> {
    format!(in alloc;
        "'delay' is {delay}, and may be 1 to {greatest} in whole ticks: write 'time = \"real\"', where it may be up to {GREATEST_DELAY}"
    )
}

/// That the greatest delay is too many ticks, where it is not told which tick would do.
fn hint_for_many_ticks(alloc: Global, delay: i64, greatest: u16) -> Result<String, AllocError> {
    format!(in alloc;
        "'delay' is {delay}, and may be 1 to {greatest}: choose a larger tick; ranges that are not whole numbers of it grow, and the answer with them"
    )
}

/// That the greatest delay is too many ticks, and which tick would do.
fn hint_for_larger_tick(
    alloc: Global,
    delay: i64,
    greatest: u16,
    tick: Duration,
    larger: Duration,
) -> Result<String, AllocError> {
    let (tick, larger) = (Length(tick), Length(larger));
    format!(in alloc;
        "'delay' is {delay} ticks of {tick}, and may be 1 to {greatest}: choose a larger tick, as 'tick = \"{larger}\"', and durations that are whole numbers of it"
    )
}

/// A round tick, of which so many ticks are no more than the greatest delay: the least of 1, 2 or 5, with
/// zeros behind it, nanoseconds.
fn larger_tick(delay: i64, tick: Duration, greatest: u16) -> Option<Duration> {
    let delay = u64::try_from(delay)
        .ok()?
        .saturating_mul(tick.nanoseconds());
    let mut power: u64 = 1;
    for _ in 0..16 {
        for factor in [1, 2, 5] {
            let length = power.saturating_mul(factor);
            if length.saturating_mul(u64::from(greatest)) >= delay {
                return Duration::from_nanoseconds(length);
            }
        }
        power = power.saturating_mul(10);
    }
    None
}

/// That a tick is too great a number of its unit.
fn hint_for_long_tick(alloc: Global, tick: Option<Duration>) -> Hint {
    let Some(tick) = tick else {
        return Ok(None);
    };
    let tick = Length(tick);
    format!(in alloc;
        "a tick lasts {tick}, and may be at most 4294967295 of the greatest unit that divides it: round it"
    ).map(Some)
}

fn hint_for_at(alloc: Global, sketch: &Sketch<'_>) -> Hint {
    for (multicast, part) in sketch.draft.multicasts.iter().zip(&sketch.multicasts) {
        if multicast.at < 0 || multicast.at > i64::from(GREATEST_AT) {
            return hint_for_issue(alloc, multicast.at, part, sketch.draft.tick).map(Some);
        }
    }
    Ok(None)
}

/// That a message is issued before tick 0, or too late.
fn hint_for_issue(
    alloc: Global,
    at: i64,
    part: &Part<'_>,
    tick: Option<Duration>,
) -> Result<String, AllocError> {
    match tick {
        Some(tick) => {
            let tick = Length(tick);
            format!(in alloc;
                "'at' in {part} is {at} ticks of {tick}, and may be 0 to {GREATEST_AT}: choose a larger tick, or take the same from each 'at'"
            )
        }
        None => format!(in alloc; "'at' in {part} is {at}, and may be 0 to {GREATEST_AT}"),
    }
}

fn hint_for_until(alloc: Global, sketch: &Sketch<'_>) -> Hint {
    for (multicast, part) in sketch.draft.multicasts.iter().zip(&sketch.multicasts) {
        let latest = multicast.at.saturating_add(i64::from(LONGEST_WAIT));
        if multicast.until < multicast.at || latest < multicast.until {
            return hint_for_window(alloc, &sketch.draft, multicast, part).map(Some);
        }
    }
    hint_for_room(alloc, sketch)
}

/// That the window of the target ends too late, or is too long beside that of another message.
fn hint_for_room(alloc: Global, sketch: &Sketch<'_>) -> Hint {
    let draft = &sketch.draft;
    for (target, part) in draft.multicasts.iter().zip(&sketch.multicasts) {
        if !target.name.is_same(&draft.target_message) {
            continue;
        }
        if target.until > i64::from(GREATEST_AT) {
            return hint_for_last_issue(alloc, target.until, part, draft.tick).map(Some);
        }
        return hint_beside_target(alloc, sketch, target, part);
    }
    Ok(None)
}

/// That the target may be issued too late.
fn hint_for_last_issue(
    alloc: Global,
    until: i64,
    part: &Part<'_>,
    tick: Option<Duration>,
) -> Result<String, AllocError> {
    match tick {
        Some(tick) => {
            let tick = Length(tick);
            format!(in alloc;
                "'until' in {part} is {until} ticks of {tick}, and that of the target may be at most {GREATEST_AT}: choose a larger tick, or take the same from each 'at'"
            )
        }
        None => format!(in alloc;
            "'until' in {part} is {until}, and that of the target may be at most {GREATEST_AT}"
        ),
    }
}

/// Which message has a window that is too long beside that of the target.
fn hint_beside_target(
    alloc: Global,
    sketch: &Sketch<'_>,
    target: &DraftMulticast,
    of_target: &Part<'_>,
) -> Hint {
    let waits = target.until.saturating_sub(target.at);
    for (multicast, part) in sketch.draft.multicasts.iter().zip(&sketch.multicasts) {
        let both = (multicast.until.saturating_sub(multicast.at)).saturating_add(waits);
        if multicast.name.is_same(&target.name) || both <= i64::from(LONGEST_WAIT) {
            continue;
        }
        let advice = if sketch.draft.tick.is_some() {
            "choose a larger tick, or shorter windows"
        } else {
            "shorten one of them"
        };
        return format!(in alloc;
            "the windows of {of_target}, which is the target, and of {part} are {both} ticks together, and may be {LONGEST_WAIT}, as each is counted from the issue of the other: {advice}"
        ).map(Some);
    }
    Ok(None)
}

/// That the last time at which a message may be issued is before the first, or too long after it.
fn hint_for_window(
    alloc: Global,
    draft: &DraftScenario,
    multicast: &DraftMulticast,
    part: &Part<'_>,
) -> Result<String, AllocError> {
    let first = shown_time(alloc, multicast.at, draft.tick)?;
    let last = shown_time(alloc, multicast.until, draft.tick)?;
    if multicast.until < multicast.at {
        return format!(in alloc;
            "'until' in {part} is {last}, and its 'at' is {first}: 'until' is the last time of issue, counted as 'at' is, and may be no earlier"
        );
    }
    match draft.tick {
        Some(tick) => {
            let tick = Length(tick);
            format!(in alloc;
                "'until' in {part} is {last}, and its 'at' is {first}: it may be at most {LONGEST_WAIT} ticks of {tick} later, so choose a larger tick, or a shorter window"
            )
        }
        None => format!(in alloc;
            "'until' in {part} is {last}, and its 'at' is {first}: it may be at most {LONGEST_WAIT} ticks later"
        ),
    }
}

/// That there are more links than there may be.
pub(crate) fn hint_for_many_links(alloc: Global) -> Result<String, AllocError> {
    format!(in alloc;
        "the links are more than {MOST_WRITTEN_LINKS}: name each group once in 'from', and once in 'to'"
    )
}

fn hint_for_range(alloc: Global, sketch: &Sketch<'_>) -> Hint {
    let (links, delay) = (&sketch.draft.links, sketch.draft.delay);
    for (link, part) in links.iter().zip(&sketch.links) {
        if link.least >= 1 && link.least <= link.most && link.most <= delay {
            continue;
        }
        return match sketch.draft.tick {
            Some(tick) if link.least == 0 => hint_for_least(alloc, part, tick).map(Some),
            _ => hint_for_ends(alloc, link, part, delay).map(Some),
        };
    }
    Ok(None)
}

/// That the least delay of what goes by no link is below a tick, or above the greatest delay.
pub(crate) fn hint_for_least_of_all(alloc: Global, scenario: &WrittenScenario) -> Hint {
    let (Some(least), Some(delay)) = (&scenario.least, &scenario.delay) else {
        return Ok(None);
    };
    let tick = &tick_of(alloc, scenario).unwrap_or(None);
    let delay = shown_written(alloc, *delay, *tick)?;
    let shown = shown_written(alloc, *least, *tick)?;
    let hint = match *tick {
        Some(tick) if is_below_a_tick(least) => {
            let tick = Length(tick);
            format!(in alloc;
                "'least' is {shown}, and a packet takes at least a tick, which lasts {tick}: write that, or a smaller tick and its length"
            )?
        }
        None if is_below_a_tick(least) => format!(in alloc;
            "'least' is {shown}, and a packet takes at least 1 tick"
        )?,
        _ => format!(in alloc;
            "'least' is {shown}, and 'delay' is {delay}: it may be at most that"
        )?,
    };
    Ok(Some(hint))
}

/// Whether a time that is a whole number of ticks is less than one.
fn is_below_a_tick(time: &WrittenTime) -> bool {
    match time {
        WrittenTime::Count(ticks) => *ticks < 1,
        WrittenTime::Lasting(duration) => duration.nanoseconds() == 0,
    }
}

/// That a packet takes at least a tick.
fn hint_for_least(alloc: Global, part: &Part<'_>, tick: Duration) -> Result<String, AllocError> {
    let tick = Length(tick);
    format!(in alloc;
        "'least' in {part} is 0, and a packet takes at least a tick, which lasts {tick}: write that, or a smaller tick and its length"
    )
}

/// That the ends of a range are not 1 or more, in order, and at most D.
fn hint_for_ends(
    alloc: Global,
    link: &DraftLink,
    part: &Part<'_>,
    delay: i64,
) -> Result<String, AllocError> {
    let (least, most) = (link.least, link.most);
    let what = if least < 1 {
        "'least' is to be 1 or more"
    } else if most < least {
        "'least' is to be at most 'most'"
    } else {
        "'most' is to be at most 'delay'"
    };
    format!(in alloc; "{part} takes {least} to {most} ticks, where 'delay' is {delay}: {what}")
}
