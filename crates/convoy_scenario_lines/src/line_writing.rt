ghost use Rattle.std.specs.Prelude.{◌≡◌, ◌<◌, ◌≤◌, ◌++◌, length, map, IfOk, IfSome, OnOk, OnErr};
ghost use Rattle.std.specs.List.{flat_map};
ghost use Rattle.convoy_scenario.specs.Scenario.{message_at, group_name_at};
ghost use Rattle.convoy_draft.specs.Durations.{count_of};
ghost use Rattle.convoy_lines.specs.Texts.{ended, spaced, text_of};
ghost use Rattle.convoy_scenario.specs.Naming.{sender_word};
ghost use Rattle.convoy_scenario.specs.WellFormed.{IsLink};
ghost use Rattle.convoy_scenario_lines.specs.ScenarioLines.{time_line, time_lines, tick_line, tick_lines, delay_line, groups_line, places_line, places_lines, link_line, stamps_words, issue_word, multicast_line, target_line, scenario_text};

use super::version::Version;
use convoy_lines::{push_further_word, push_number, push_number_line};
use convoy_scenario::naming::sender_word;
use convoy_scenario::scenario_laws::targets_are_groups;
use convoy_scenario::{
    AllocResult, Duration, GREATEST_AT, Link, MOST_UNITS, Scenario, Sender, Time,
};
use std::alloc::Global;

/// Appends the canonical lines of a scenario, as a version has them, from the line `time`, where there
/// is one, or else the line `delay`, to the line `target` (docs/FORMATS.md, "Certificate text"). Where
/// memory runs out, `out` stays as it was.
pub fn write_lines(
    alloc: Global,
    version: Version,
    scenario: &Scenario,
    out: &mut Vec<u8>,
) -> AllocResult<()>
    ensures ok { OnOk result (out.new.items ≡ out.old.items ++ scenario_text version scenario.now) }
    ensures err { OnErr result (out.new.items ≡ out.old.items) }
{
    let text = lines_of(alloc, version, scenario)?;
    out.extend_from_slice(&text)
}

fn lines_of(alloc: Global, version: Version, scenario: &Scenario) -> AllocResult<Vec<u8>>
    ensures { IfOk result (λ text. text.items ≡ scenario_text version scenario.now) }
{
    let mut text = Vec::new(alloc);
    push_time(&mut text, version, scenario.time())?;
    push_tick(&mut text, scenario.tick())?;
    push_number_line(&mut text, "delay", u32::from(scenario.delay()))?;
    push_groups(&mut text, scenario)?;
    push_places(&mut text, scenario)?;
    push_links(&mut text, scenario)?;
    push_multicasts(&mut text, scenario)?;
    push_target(&mut text, scenario)?;
    Ok(text)
}

fn push_time(text: &mut Vec<u8>, version: Version, time: Time) -> AllocResult<()>
    ensures { OnOk result (text.new.items ≡ text.old.items ++ text_of (time_lines version time)) }
{
    match version {
        Version::One | Version::Two => Ok(()),
        Version::Three => text.extend_from_slice(time_line(time)),
    }
}

/// The line `time`, ended.
fn time_line(time: Time) -> &'static [u8]
    ensures { result.now ≡ ended (time_line time) }
{
    match time {
        Time::Ticks => b"time ticks\n",
        Time::Real => b"time real\n",
    }
}

fn push_tick(text: &mut Vec<u8>, tick: Option<Duration>) -> AllocResult<()>
    requires { IfSome tick (λ length. count_of length ≤ MOST_UNITS) }
    ensures { OnOk result (text.new.items ≡ text.old.items ++ text_of (tick_lines tick)) }
{
    match tick {
        None => Ok(()),
        Some(tick) => push_tick_line(text, tick),
    }
}

fn push_tick_line(text: &mut Vec<u8>, tick: Duration) -> AllocResult<()>
    requires { count_of tick ≤ MOST_UNITS }
    ensures { OnOk result (text.new.items ≡ text.old.items ++ ended (tick_line tick)) }
{
    text.extend_from_slice(b"tick ")?;
    push_number(text, tick.count() as u32)?;
    push_further_word(text, tick.unit().word())?;
    Ok(text.push(b'\n')?)
}

fn push_groups(text: &mut Vec<u8>, scenario: &Scenario) -> AllocResult<()>
    ensures { OnOk result (text.new.items ≡ text.old.items ++ ended (groups_line scenario.now)) }
{
    text.extend_from_slice(b"groups")?;
    for g in 0..scenario.group_count() {
        push_further_word(text, scenario.group_name(g))?;
    }
    Ok(text.push(b'\n')?)
}

fn push_places(text: &mut Vec<u8>, scenario: &Scenario) -> AllocResult<()>
    ensures { OnOk result
        (text.new.items ≡ text.old.items ++ text_of (places_lines scenario.now.places)) }
{
    if scenario.place_count() == 0 {
        Ok(())
    } else {
        push_places_line(text, scenario)
    }
}

fn push_places_line(text: &mut Vec<u8>, scenario: &Scenario) -> AllocResult<()>
    ensures { OnOk result
        (text.new.items ≡ text.old.items ++ ended (places_line scenario.now.places)) }
{
    text.extend_from_slice(b"places")?;
    for p in 0..scenario.place_count() {
        push_further_word(text, scenario.place_name(p))?;
    }
    Ok(text.push(b'\n')?)
}

fn push_links(text: &mut Vec<u8>, scenario: &Scenario) -> AllocResult<()>
    ensures { OnOk result
        (text.new.items ≡ text.old.items
        ++ text_of (map (link_line scenario.now) scenario.now.links)) }
{
    for link in scenario.links() {
        push_link(text, scenario, link)?;
    }
    Ok(())
}

fn push_link(text: &mut Vec<u8>, scenario: &Scenario, link: &Link) -> AllocResult<()>
    requires { IsLink (length scenario.now.groups) (length scenario.now.places) scenario.now.delay link.now }
    ensures { OnOk result
        (text.new.items ≡ text.old.items ++ ended (link_line scenario.now link.now)) }
{
    text.extend_from_slice(b"link")?;
    push_sender(text, scenario, link.sender)?;
    push_further_word(text, scenario.group_name(link.to))?;
    text.push(b' ')?;
    push_number(text, u32::from(link.least))?;
    text.push(b' ')?;
    push_number(text, u32::from(link.most))?;
    push_stamps(text, link.stamps)?;
    Ok(text.push(b'\n')?)
}

/// Appends the word that says of a link that it is for stamps, too, where it is.
fn push_stamps(text: &mut Vec<u8>, stamps: bool) -> AllocResult<()>
    ensures { OnOk result
        (text.new.items ≡ text.old.items ++ flat_map spaced (stamps_words stamps)) }
{
    if stamps {
        push_further_word(text, "stamps")
    } else {
        Ok(())
    }
}

fn push_multicasts(text: &mut Vec<u8>, scenario: &Scenario) -> AllocResult<()>
    ensures { OnOk result
        (text.new.items ≡ text.old.items
        ++ text_of (map (multicast_line scenario.now) scenario.now.multicasts)) }
{
    for message in 0..scenario.message_count() {
        push_multicast(text, scenario, message)?;
    }
    Ok(())
}

fn push_multicast(text: &mut Vec<u8>, scenario: &Scenario, message: usize) -> AllocResult<()>
    requires { message < length scenario.now.multicasts }
    ensures { OnOk result
        (text.new.items ≡ text.old.items
        ++ ended (multicast_line scenario.now (message_at scenario.now message))) }
{
    text.extend_from_slice(b"multicast")?;
    push_further_word(text, scenario.message_name(message))?;
    push_sender(text, scenario, scenario.sender(message))?;
    push_issue(
        text,
        scenario.issue_tick(message),
        scenario.longest_wait(message),
    )?;
    push_destinations(text, scenario, message)?;
    Ok(text.push(b'\n')?)
}

/// Appends a space and the tick at which a message is issued; where it may wait, the first and the last
/// such tick.
fn push_issue(text: &mut Vec<u8>, at: u32, longest_wait: u16) -> AllocResult<()>
    requires { at ≤ GREATEST_AT }
    ensures { OnOk result
        (text.new.items ≡ text.old.items ++ spaced (issue_word at longest_wait)) }
{
    text.push(b' ')?;
    push_number(text, at)?;
    if longest_wait == 0 {
        return Ok(());
    }
    text.extend_from_slice(b"..")?;
    push_number(text, at + u32::from(longest_wait))
}

fn push_sender(text: &mut Vec<u8>, scenario: &Scenario, sender: Sender) -> AllocResult<()>
    ensures { OnOk result
        (text.new.items ≡ text.old.items ++ spaced (sender_word scenario.now sender)) }
{
    push_further_word(text, sender_word(scenario, sender))
}

fn push_destinations(text: &mut Vec<u8>, scenario: &Scenario, message: usize) -> AllocResult<()>
    requires { message < length scenario.now.multicasts }
    ensures { OnOk result
        (text.new.items ≡ text.old.items
        ++ flat_map spaced (map (group_name_at scenario.now)
        (message_at scenario.now message).destinations)) }
{
    for g in scenario.destinations(message) {
        push_further_word(text, scenario.group_name(*g))?;
    }
    Ok(())
}

fn push_target(text: &mut Vec<u8>, scenario: &Scenario) -> AllocResult<()>
    ensures { OnOk result (text.new.items ≡ text.old.items ++ ended (target_line scenario.now)) }
{
    targets_are_groups();
    text.extend_from_slice(b"target")?;
    push_further_word(text, scenario.message_name(scenario.target_message()))?;
    push_further_word(text, scenario.group_name(scenario.target_group()))?;
    Ok(text.push(b'\n')?)
}
