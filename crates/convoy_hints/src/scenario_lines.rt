use convoy_certificate::{Form, form_of};
use convoy_hints_sketch::{Part, Sketch, TextKind};
use convoy_lines::LineReader;
use convoy_scenario::{
    DraftLink, DraftMulticast, DraftScenario, Duration, Name, Scenario, Time, TimeUnit,
};
use convoy_scenario_lines::read_lines;
use convoy_toml::ScenarioTable;
use std::alloc::{AllocError, Global};

/// The scenario that stands in the lines of a certificate; what is not of its form is left out.
pub(crate) fn sketch_of_lines(alloc: Global, text: &str) -> Result<Sketch<'_>, AllocError> {
    let mut sketch = Sketch {
        draft: DraftScenario {
            time: Time::Ticks,
            tick: None,
            delay: 0,
            groups: Vec::new(alloc),
            places: Vec::new(alloc),
            links: Vec::new(alloc),
            multicasts: Vec::new(alloc),
            target_message: Name::new(alloc, "")?,
            target_group: Name::new(alloc, "")?,
        },
        multicasts: Vec::new(alloc),
        links: Vec::new(alloc),
        is_target_asked: false,
    };
    for (before, line) in text.lines().enumerate() {
        let words: Vec<&str> = line.split(' ').collect(alloc)?;
        let number = before.saturating_add(1);
        add_line(alloc, &mut sketch, number, words.as_slice())?;
        if words.first() == Some(&"target") {
            break;
        }
    }
    Ok(sketch)
}

/// The scenario of a certificate, and what follows its lines; None where the lines have a fault, or
/// memory ran out.
pub(crate) fn scenario_in(alloc: Global, text: &[u8]) -> Option<(Scenario, LineReader<'_>)> {
    let Form::Certificate(Some(version)) = form_of(text) else {
        return None;
    };
    let mut reader = LineReader::over(text);
    let _ = reader.line();
    let scenario = read_lines(alloc, version.of_lines(), &mut reader).ok()?;
    Some((scenario, reader))
}

/// The numbers in a line `schedule` or `order`; none where its bytes are not UTF-8.
pub(crate) fn numbers_of(alloc: Global, line: &[u8]) -> Result<Vec<i64>, AllocError> {
    let mut numbers = Vec::new(alloc);
    let Ok(line) = std::str::from_utf8(line) else {
        return Ok(numbers);
    };
    for word in line.split(' ').skip(1) {
        numbers.push(number_of(word))?;
    }
    Ok(numbers)
}

/// Adds what a line says.
fn add_line<'a>(
    alloc: Global,
    sketch: &mut Sketch<'a>,
    number: usize,
    words: &[&'a str],
) -> Result<(), AllocError> {
    let draft = &mut sketch.draft;
    match words {
        ["time", word] => draft.time = Time::named(word).unwrap_or(Time::Ticks),
        ["tick", count, unit] => draft.tick = length_of(count, unit),
        ["delay", delay] => draft.delay = number_of(delay),
        ["groups", groups @ ..] => draft.groups = names_of(alloc, groups)?,
        ["places", places @ ..] => draft.places = names_of(alloc, places)?,
        ["link", sender, to, least, most, stamps @ ..] => {
            let table = ScenarioTable::Link(sketch.links.len());
            sketch.links.push(part_at(table, None, number))?;
            draft.links.push(DraftLink {
                sender: sender_of(alloc, sender)?,
                to: Name::new(alloc, to)?,
                least: number_of(least),
                most: number_of(most),
                stamps: !stamps.is_empty(),
            })?;
        }
        ["multicast", name, sender, at, to @ ..] => {
            let table = ScenarioTable::Multicast(sketch.multicasts.len());
            sketch.multicasts.push(part_at(table, Some(name), number))?;
            let (at, until) = issue_of(at);
            draft.multicasts.push(DraftMulticast {
                name: Name::new(alloc, name)?,
                sender: sender_of(alloc, sender)?,
                to: names_of(alloc, to)?,
                at,
                until,
            })?;
        }
        ["target", message, group] => {
            draft.target_message = Name::new(alloc, message)?;
            draft.target_group = Name::new(alloc, group)?;
        }
        _ => {}
    }
    Ok(())
}

fn part_at<'a>(table: ScenarioTable, name: Option<&'a str>, line: usize) -> Part<'a> {
    Part {
        table,
        kind: TextKind::Scenario,
        name,
        line: Some(line),
    }
}

fn names_of(alloc: Global, words: &[&str]) -> Result<Vec<Name>, AllocError> {
    let mut names = Vec::new(alloc);
    for word in words {
        names.push(Name::new(alloc, word)?)?;
    }
    Ok(names)
}

/// The length of a tick that is so many of a unit; None where there is none such.
fn length_of(count: &str, unit: &str) -> Option<Duration> {
    let unit = TimeUnit::named(unit.as_bytes())?;
    let count: u64 = count.parse().ok()?;
    Duration::from_nanoseconds(count.checked_mul(unit.nanoseconds())?)
}

/// The first and the last tick at which a message may be issued, by the word for its issue.
fn issue_of(word: &str) -> (i64, i64) {
    let (first, last) = word.split_once("..").unwrap_or((word, word));
    (number_of(first), number_of(last))
}

/// The sender that a word names; None is a client.
fn sender_of(alloc: Global, word: &str) -> Result<Option<Name>, AllocError> {
    if word == "client" {
        return Ok(None);
    }
    Name::new(alloc, word).map(Some)
}

/// The number that a word is; 0 where it is none.
fn number_of(word: &str) -> i64 {
    word.parse().unwrap_or(0)
}
