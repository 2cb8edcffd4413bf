ghost use Rattle.std.specs.Prelude.{◌≡◌, ◌==◌, ◌≤◌, ◌^◌, Ok, None, codes, map, OnErr};
ghost use Rattle.std.specs.Cmp.Lexicographic.{pointwise};
ghost use Rattle.std.specs.Result.{result_map_both};
ghost use Rattle.convoy_scenario.specs.Memory.{IsUnlessMemory};
ghost use Rattle.convoy_lines.specs.Labels.{number_in};
ghost use Rattle.convoy_scenario_lines.specs.Keeping.{kept_names_in, kept_places_at, kept_multicast_in, kept_messages_at, kept_scenario_at};
ghost use Rattle.convoy_scenario_lines.specs.LineForms.{time_in, tick_in, link_in, target_in};
ghost use Rattle.convoy_scenario_lines.specs.LineReading.{form_at, time_at, is_tick_due, tick_at, is_places_due, is_link_due, links_at, first_misplaced, first_misplaced_link, is_multicast_due, is_ordered, first_unordered, told, scenario_at};
ghost use Rattle.convoy_lines.specs.Places.{upcoming};
ghost use Rattle.convoy_scenario.specs.Numbering.{link_of, scenario_of_draft};

use super::line_fault::{Expected, LineFault};
use super::line_forms::{link_in, multicast_in, names_in, target_in, tick_in, time_in};
use super::version::Version;
use convoy_lines::{LineReader, number_in};
use convoy_scenario::{
    DraftLink, DraftMulticast, DraftScenario, Duration, Limit, Link, MOST_LINKS, MOST_MULTICASTS,
    Name, Scenario, ScenarioFault, Time,
};
use std::alloc::{AllocError, Global};

/// What is read of lines, or the first fault there.
type Read<T> = Result<T, LineFault>;

/// Reads the lines of a scenario, up to the line `target`, as a version has them (docs/FORMATS.md,
/// "Certificate text").
///
/// A fault is the first in the order of the lines: a line that is absent, not ended or not of its
/// form, or a line `link` past `MOST_LINKS` or a line `multicast` past `MOST_MULTICASTS`; then, at the
/// line `target`, a scenario that is none; then a line `link` that is out of order or has the range 1
/// to D; then a line whose destinations are not in the order of the groups. The reader then stands
/// where it stood, as it does where memory runs out.
pub fn read_lines(
    alloc: Global,
    version: Version,
    reader: &mut LineReader,
) -> Result<Scenario, LineFault>
    ensures value { IsUnlessMemory LineFault.Memory (scenario_at version reader.old)
        (result_map_both (λ scenario. (scenario, reader.new)) (λ fault. fault) result) }
    ensures err { OnErr result (reader.new ≡ reader.old) }
{
    let mut ahead = reader.copy();
    let scenario = read_scenario(alloc, version, &mut ahead)?;
    *reader = ahead;
    Ok(scenario)
}

/// Reads the lines of a scenario. After a fault the reader stands somewhere among them.
fn read_scenario(alloc: Global, version: Version, reader: &mut LineReader) -> Read<Scenario>
    ensures { IsUnlessMemory LineFault.Memory (scenario_at version reader.old)
        (result_map_both (λ scenario. (scenario, reader.new)) (λ fault. fault) result) }
{
    read_kept(alloc, version, reader)
}

/// Reads the lines of a scenario, and keeps of a line no more names than show its fault: a line may
/// have millions of them.
#[tactic(auto, unfolding(crate::specs::Keeping::kept_scenario_at))]
fn read_kept(alloc: Global, version: Version, reader: &mut LineReader) -> Read<Scenario>
    ensures { IsUnlessMemory LineFault.Memory (kept_scenario_at version reader.old)
        (result_map_both (λ scenario. (scenario, reader.new)) (λ fault. fault) result) }
{
    let time = read_time(version, reader)?;
    let tick = read_tick(version, reader)?;
    let delay = read_delay(reader)?;
    let groups = read_names(alloc, b"groups", Expected::Groups, reader)?;
    let places = read_places(alloc, version, reader)?;
    let first_link = reader.number();
    let links = read_links(alloc, version, reader)?;
    let first = reader.number();
    let multicasts = read_multicasts(alloc, version, &groups, reader)?;
    let (target_message, target_group) = read_target(alloc, reader)?;
    let unordered = first_unordered(&groups, first, &multicasts);
    let draft = DraftScenario {
        time,
        tick,
        delay: i64::from(delay),
        groups,
        places,
        links,
        multicasts,
        target_message,
        target_group,
    };
    let misplaced = first_misplaced_link(first_link, &draft);
    let scenario = scenario_of(alloc, draft)?;
    if let Some(number) = misplaced {
        return Err(LineFault::Line(number, Expected::Link));
    }
    match unordered {
        Some(number) => Err(LineFault::Line(number, Expected::Multicast)),
        None => Ok(scenario),
    }
}

fn scenario_of(alloc: Global, draft: DraftScenario) -> Read<Scenario>
    ensures { IsUnlessMemory LineFault.Memory (told (scenario_of_draft draft)) result }
{
    match Scenario::from_draft(alloc, draft) {
        Ok(scenario) => Ok(scenario),
        Err(ScenarioFault::Memory) => Err(LineFault::Memory),
        Err(fault) => Err(LineFault::Scenario(fault)),
    }
}

/// How time goes: by the next line in version 3, and in whole ticks in the others.
fn read_time(version: Version, reader: &mut LineReader) -> Read<Time>
    ensures { result_map_both (λ time. (time, reader.new)) (λ fault. fault) result
        ≡ time_at version reader.old }
{
    match version {
        Version::One | Version::Two => Ok(Time::Ticks),
        Version::Three => read_time_line(reader),
    }
}

fn read_time_line(reader: &mut LineReader) -> Read<Time>
    ensures { result_map_both (λ time. (time, reader.new)) (λ fault. fault) result ≡ form_at Expected.Time time_in reader.old }
{
    let wrong = LineFault::Line(reader.number(), Expected::Time);
    let line = reader.line().ok_or(wrong)?;
    time_in(line).ok_or(wrong)
}

/// How long a tick lasts, by the next line, where it begins with `tick`.
fn read_tick(version: Version, reader: &mut LineReader) -> Read<Option<Duration>>
    ensures { result_map_both (λ tick. (tick, reader.new)) (λ fault. fault) result
        ≡ tick_at version reader.old }
{
    if !is_tick_due(version, reader) {
        return Ok(None);
    }
    let tick = read_tick_line(reader)?;
    Ok(Some(tick))
}

fn read_tick_line(reader: &mut LineReader) -> Read<Duration>
    ensures { result_map_both (λ tick. (tick, reader.new)) (λ fault. fault) result ≡ form_at Expected.Tick tick_in reader.old }
{
    let wrong = LineFault::Line(reader.number(), Expected::Tick);
    let line = reader.line().ok_or(wrong)?;
    tick_in(line).ok_or(wrong)
}

/// Whether a line `tick` is due: the version has such lines, and what comes next begins with that word.
fn is_tick_due(version: Version, reader: &LineReader) -> bool
    ensures { result ≡ is_tick_due version (upcoming reader.now) }
{
    match version {
        Version::One | Version::Two => false,
        Version::Three => reader.begins_with(b"tick"),
    }
}

fn read_delay(reader: &mut LineReader) -> Read<u32>
    ensures { result_map_both (λ delay. (delay, reader.new)) (λ fault. fault) result
        ≡ form_at Expected.Delay (number_in (codes "delay")) reader.old }
{
    let wrong = LineFault::Line(reader.number(), Expected::Delay);
    let line = reader.line().ok_or(wrong)?;
    number_in(line, b"delay").ok_or(wrong)
}

/// What is kept of the names of the next line, which has to begin with that word.
fn read_names(
    alloc: Global,
    label: &[u8],
    expected: Expected,
    reader: &mut LineReader,
) -> Read<Vec<Name>>
    ensures { IsUnlessMemory LineFault.Memory (form_at expected (kept_names_in label.now) reader.old)
        (result_map_both (λ names. (names.items, reader.new)) (λ fault. fault) result) }
{
    let wrong = LineFault::Line(reader.number(), expected);
    let line = reader.line().ok_or(wrong)?;
    names_in(alloc, label, line, wrong)
}

/// What is kept of the names of the places: of those of the next line, where it begins with `places`.
fn read_places(alloc: Global, version: Version, reader: &mut LineReader) -> Read<Vec<Name>>
    ensures { IsUnlessMemory LineFault.Memory (kept_places_at version reader.old)
        (result_map_both (λ places. (places.items, reader.new)) (λ fault. fault) result) }
{
    if !is_places_due(version, reader) {
        return Ok(Vec::new(alloc));
    }
    read_names(alloc, b"places", Expected::Places, reader)
}

/// Whether a line `places` is due: the version has such lines, and what comes next begins with that word.
fn is_places_due(version: Version, reader: &LineReader) -> bool
    ensures { result ≡ is_places_due version (upcoming reader.now) }
{
    match version {
        Version::One | Version::Two => false,
        Version::Three => reader.begins_with(b"places"),
    }
}

fn read_link(alloc: Global, version: Version, reader: &mut LineReader) -> Read<DraftLink>
    ensures { IsUnlessMemory LineFault.Memory (form_at Expected.Link (link_in version) reader.old)
        (result_map_both (λ link. (link, reader.new)) (λ fault. fault) result) }
{
    let wrong = LineFault::Line(reader.number(), Expected::Link);
    let line = reader.line().ok_or(wrong)?;
    link_in(alloc, version, line, wrong)
}

fn read_links(alloc: Global, version: Version, reader: &mut LineReader) -> Read<Vec<DraftLink>>
    ensures { IsUnlessMemory LineFault.Memory (links_at version 0 reader.old)
        (result_map_both (λ links. (links.items, reader.new)) (λ fault. fault) result) }
{
    let mut links = Vec::new(alloc);
    while is_link_due(version, reader) {
        let link = read_link(alloc, version, reader)?;
        if links.len() == MOST_LINKS {
            return Err(LineFault::Scenario(ScenarioFault::OverLimit(Limit::Link)));
        }
        links.push(link).map_err(AllocError::from)?;
    }
    Ok(links)
}

/// Whether a line `link` is due: the version has such lines, and what comes next begins with that word.
fn is_link_due(version: Version, reader: &LineReader) -> bool
    ensures { result ≡ is_link_due version (upcoming reader.now) }
{
    match version {
        Version::One => false,
        Version::Two | Version::Three => reader.begins_with(b"link"),
    }
}

fn read_multicast(
    alloc: Global,
    version: Version,
    groups: &[Name],
    reader: &mut LineReader,
) -> Read<DraftMulticast>
    ensures { IsUnlessMemory LineFault.Memory
        (form_at Expected.Multicast (kept_multicast_in version groups.now) reader.old)
        (result_map_both (λ message. (message, reader.new)) (λ fault. fault) result) }
{
    let wrong = LineFault::Line(reader.number(), Expected::Multicast);
    let line = reader.line().ok_or(wrong)?;
    multicast_in(alloc, version, groups, line, wrong)
}

fn read_multicasts(
    alloc: Global,
    version: Version,
    groups: &[Name],
    reader: &mut LineReader,
) -> Read<Vec<DraftMulticast>>
    ensures { IsUnlessMemory LineFault.Memory (kept_messages_at version groups.now 0 reader.old)
        (result_map_both (λ messages. (messages.items, reader.new)) (λ fault. fault) result) }
{
    let mut multicasts = Vec::new(alloc);
    while is_multicast_due(reader, multicasts.len()) {
        let multicast = read_multicast(alloc, version, groups, reader)?;
        if multicasts.len() == MOST_MULTICASTS {
            return Err(LineFault::Scenario(ScenarioFault::OverLimit(Limit::Multicasts)));
        }
        multicasts.push(multicast).map_err(AllocError::from)?;
    }
    Ok(multicasts)
}

/// Whether a line `multicast` is due after so many: it is the first of them, or what comes next begins
/// with that word.
fn is_multicast_due(reader: &LineReader, count: usize) -> bool
    ensures { result ≡ is_multicast_due count (upcoming reader.now) }
{
    count == 0 || reader.begins_with(b"multicast")
}

fn read_target(alloc: Global, reader: &mut LineReader) -> Read<(Name, Name)>
    ensures { IsUnlessMemory LineFault.Memory (form_at Expected.Target target_in reader.old)
        (result_map_both (λ target. (target, reader.new)) (λ fault. fault) result) }
{
    let wrong = LineFault::Line(reader.number(), Expected::Target);
    let line = reader.line().ok_or(wrong)?;
    target_in(alloc, line, wrong)
}

/// The number of the first line `link` that is out of order or has the range 1 to D, where `number` is
/// that of the first of the lines.
fn first_misplaced_link(number: usize, draft: &DraftScenario) -> Option<usize>
    requires { number ≤ 2 ^ 63 }
    ensures { result ≡ first_misplaced_link number draft.now }
{
    first_misplaced(
        u32::from(draft.delay_ticks()),
        &draft.groups,
        &draft.places,
        number,
        &draft.links,
    )
}

fn first_misplaced(
    delay: u32,
    groups: &[Name],
    places: &[Name],
    number: usize,
    links: &[DraftLink],
) -> Option<usize>
    requires { number ≤ 2 ^ 63 }
    ensures { result ≡ first_misplaced delay None number (map (link_of groups.now places.now) links.now) }
{
    let mut before = None;
    for (i, draft) in links.iter().enumerate() {
        let link = Link::from_draft(draft, groups, places);
        if !link.follows(&before) || link.is_whole(delay) {
            return Some(number + i);
        }
        before = Some(link);
    }
    None
}

/// The number of the first line whose destinations are not in the order of the groups, where `number`
/// is that of the first of the lines.
fn first_unordered(groups: &[Name], number: usize, multicasts: &[DraftMulticast]) -> Option<usize>
    requires { number ≤ 2 ^ 63 }
    ensures { result ≡ first_unordered groups.now number multicasts.now }
{
    for (i, multicast) in multicasts.iter().enumerate() {
        if !is_ordered(groups, multicast) {
            return Some(number + i);
        }
    }
    None
}

/// Whether the destinations of a message are in the order of the groups.
fn is_ordered(groups: &[Name], multicast: &DraftMulticast) -> bool
    ensures { result ≡ is_ordered groups.now multicast.now }
{
    let mut rest = multicast.to.as_slice();
    for group in groups {
        if group.is_among(&multicast.to) {
            let Some((first, tail)) = rest.split_first() else {
                return false;
            };
            if !first.is_same(group) {
                return false;
            }
            rest = tail;
        }
    }
    rest.is_empty()
}
