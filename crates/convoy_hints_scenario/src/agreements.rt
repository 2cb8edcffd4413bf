use super::names::first_double;
use super::references::hint_for_no_such;
use convoy_hints_sketch::{Hint, Quoted, ScenarioText, shown_written, words_of};
use convoy_scenario::{Duration, Limit, Name, ScenarioFault};
use convoy_toml::{
    MOST_WRITTEN_LINKS, ScenarioTable, WrittenAgreement, WrittenScenario, WrittenTime, tick_of,
};
use std::alloc::{AllocError, Global};

/// Which limit is broken where replicas agree: of D, of the links that are written, or of what they need to agree. None
/// for any other.
pub(crate) fn hint_for_agreed_limit(
    alloc: Global,
    source: ScenarioText<'_>,
    written: &WrittenScenario,
    limit: Limit,
) -> Hint {
    match limit {
        Limit::Agree => hint_for_agreed_range(alloc, source, written),
        Limit::Link => format!(in alloc;
            "each table [[link]] has to have 1 <= least <= most <= delay by itself, as what replicas need to agree is added to it, and all together write at most {MOST_WRITTEN_LINKS} links"
        ).map(Some),
        Limit::Delay => {
            let greatest = written.time.greatest_delay();
            format!(in alloc;
                "'delay' is to be 1 to {greatest} ticks, and the greatest time in 'agree' no more than {greatest}: choose a larger tick"
            ).map(Some)
        }
        _ => Ok(None),
    }
}

/// Which times in which replicas agree are no range.
fn hint_for_agreed_range(
    alloc: Global,
    source: ScenarioText<'_>,
    written: &WrittenScenario,
) -> Hint {
    let tick = tick_of(alloc, written).unwrap_or(None);
    for (number, agreement) in written.agreements.iter().enumerate() {
        if !is_range(&agreement.least, &agreement.most) {
            return hint_for_range(
                alloc,
                source,
                number,
                &agreement.least,
                &agreement.most,
                &tick,
            );
        }
    }
    Ok(None)
}

/// What the times in the table of groups of that number are to be.
fn hint_for_range(
    alloc: Global,
    source: ScenarioText<'_>,
    number: usize,
    least: &WrittenTime,
    most: &WrittenTime,
    tick: &Option<Duration>,
) -> Hint {
    let part = source.part(ScenarioTable::Group(number));
    let first = shown_written(alloc, *least, *tick)?;
    let second = shown_written(alloc, *most, *tick)?;
    format!(in alloc;
        "'agree' in {part} is {first} to {second}: the first is to be a tick or more, and the second no less than it"
    ).map(Some)
}

/// Whether two times of one kind, a number of ticks or a duration, are a range that begins above 0. Those of two kinds
/// are taken for one.
fn is_range(least: &WrittenTime, most: &WrittenTime) -> bool {
    match (count_of(least), count_of(most)) {
        (Some(least), Some(most)) => 1 <= least && least <= most,
        _ => match (length_of(least), length_of(most)) {
            (Some(least), Some(most)) => 1 <= least && least <= most,
            _ => true,
        },
    }
}

/// The ticks of a time that is a number of them.
fn count_of(time: &WrittenTime) -> Option<i64> {
    match time {
        WrittenTime::Count(ticks) => Some(*ticks),
        WrittenTime::Lasting(_) => None,
    }
}

/// The nanoseconds of a time that is a duration.
fn length_of(time: &WrittenTime) -> Option<u64> {
    match time {
        WrittenTime::Count(_) => None,
        WrittenTime::Lasting(duration) => Some(duration.nanoseconds()),
    }
}

/// Which name in a table of groups is that of no group, or stands there twice, or is that of a group of which a link to
/// itself is written, too. None for any other fault, and where none is.
pub(crate) fn hint_for_agreeing(
    alloc: Global,
    source: ScenarioText<'_>,
    written: &WrittenScenario,
    fault: ScenarioFault,
) -> Hint {
    match fault {
        ScenarioFault::UnknownGroup => hint_for_unknown(alloc, source, written),
        ScenarioFault::DoubleName => hint_for_double(alloc, written),
        _ => Ok(None),
    }
}

/// Which name in a table of groups is that of no group.
fn hint_for_unknown(alloc: Global, source: ScenarioText<'_>, written: &WrittenScenario) -> Hint {
    let groups = words_of(alloc, &written.groups)?;
    for (number, agreement) in written.agreements.iter().enumerate() {
        if let Some(name) = first_unknown(&agreement.groups, &written.groups) {
            let part = source.part(ScenarioTable::Group(number));
            let place = format!(in alloc; "'name' in {part}")?;
            return hint_for_no_such(alloc, place.as_str(), "group", name, &groups).map(Some);
        }
    }
    Ok(None)
}

/// The first of the names that is none of the groups'.
fn first_unknown<'a>(names: &'a [Name], groups: &[Name]) -> Option<&'a str> {
    names
        .iter()
        .find(|name| !name.is_among(groups))
        .map(|name| name.as_str())
}

/// Which group stands twice in tables of groups, or else that such a table writes the link of its group to itself.
fn hint_for_double(alloc: Global, written: &WrittenScenario) -> Hint {
    let names = names_of(alloc, &written.agreements)?;
    if names.is_empty() {
        return Ok(None);
    }
    match first_double(&names) {
        Some((first, _)) => {
            let name = Quoted(names.get(first).copied().unwrap_or(""));
            format!(in alloc; "tables [[group]] name {name} twice: name each group once").map(Some)
        }
        None => String::from_str(
            alloc,
            "a table [[group]] writes the link of its group to itself: leave out the table [[link]] that leads from that group to itself",
        )
        .map(Some),
    }
}

/// The names in all tables of groups, in their order.
fn names_of(alloc: Global, agreements: &[WrittenAgreement]) -> Result<Vec<&str>, AllocError> {
    let mut names = Vec::new(alloc);
    for agreement in agreements {
        for name in &agreement.groups {
            names.push(name.as_str())?;
        }
    }
    Ok(names)
}
