ghost use Rattle.std.specs.Prelude.{◌≡◌, ◌++◌, string_bytes, OnOk, OnErr, IfOk};
ghost use Rattle.std.specs.List.{flat_map};
ghost use Rattle.convoy_packets.specs.Assignment.{Schedule};
ghost use Rattle.convoy_sim.specs.Run.{IsRunOf};
ghost use Rattle.convoy_timeline.specs.Timeline.{issue_line, line_of, line_text, tick_line, timeline_of, timeline_text};

use super::entry::Entry;
use super::line::Line;
use super::listing::list_entries;
use super::timeline_lines::list_lines;
use convoy_packets::{Instance, Schedule};
use convoy_scenario::lookup::sender_of;
use convoy_scenario::naming::{group_name, message_name, sender_word};
use convoy_scenario::{AllocResult, Scenario};
use convoy_sim::Run;
use std::alloc::Global;

/// What happens at each group in a run of the scenario, in the order of the timeline
/// ([`write_timeline`]). Fails where memory runs out, and else never.
pub fn entries_of(alloc: Global, scenario: &Scenario, run: &Run) -> AllocResult<Vec<Entry>>
    ensures { (schedule : Schedule) → IsRunOf scenario.now schedule run.now
        → IfOk result (λ entries. entries.items ≡ timeline_of scenario.now schedule) }
{
    list_entries(alloc, scenario, run)
}

/// Appends the timeline of the run of an instance under a schedule, for a reader who follows what happens
/// at each group: for each message at each of its destinations the three lines
///
/// ```text
/// TICK GROUP propose MESSAGE TIME.GROUP
/// TICK GROUP commit MESSAGE TIME.GROUP
/// TICK GROUP deliver MESSAGE TIME.GROUP
/// ```
///
/// and for each message that may wait before its issue the line
///
/// ```text
/// TICK SENDER issue MESSAGE
/// ```
///
/// where SENDER is the group that sends it, or `client`. Where the length of a tick is known, a line `tick
/// COUNT UNIT` comes before these.
///
/// TICK is in ticks from the start of the run, GROUP and MESSAGE are names, and TIME.GROUP is a stamp
/// with the name of the group that gave it: the local stamp of the proposal, else the final one
/// (docs/PROTOCOL.md; docs/FORMATS.md, "Numbers and lines"). The lines go by tick. Inside a tick
/// issues come first, by the number of the message, then proposals, by the number of the message and of
/// the group, then commits in the same order, and then deliveries, by the number of the group and the
/// final stamp.
///
/// Where memory runs out the vector is as it was.
pub fn write_timeline(
    instance: &Instance,
    schedule: &Schedule,
    run: &Run,
    out: &mut Vec<u8>,
) -> AllocResult<()>
    ensures ok { IsRunOf instance.now schedule.now run.now
        → OnOk result (out.new.items ≡ out.old.items ++ timeline_text instance.now schedule.now) }
    ensures err { OnErr result (out.new.items ≡ out.old.items) }
{
    let alloc = *out.allocator();
    let lines = list_lines(alloc, instance, schedule, run)?;
    let text = text_of(alloc, instance.scenario(), &lines)?;
    out.extend_from_slice(&text)
}

/// The length of a tick, where it is known, and the texts of lines.
fn text_of(alloc: Global, scenario: &Scenario, lines: &[Line]) -> AllocResult<Vec<u8>>
    ensures { IfOk result (λ text. text.items
        ≡ tick_line scenario.now.tick ++ flat_map (line_text scenario.now) lines.now) }
{
    let mut text = Vec::new(alloc);
    text.extend_from_slice(tick_line(alloc, scenario)?.as_bytes())?;
    text.extend_from_slice(&lines_text(alloc, scenario, lines)?)?;
    Ok(text)
}

/// The texts of some lines.
fn lines_text(alloc: Global, scenario: &Scenario, lines: &[Line]) -> AllocResult<Vec<u8>>
    ensures { IfOk result (λ text. text.items ≡ flat_map (line_text scenario.now) lines.now) }
{
    let mut text = Vec::new(alloc);
    for line in lines {
        push_line(scenario, *line, &mut text)?;
    }
    Ok(text)
}

/// The line that tells the length of a tick, where it is known.
fn tick_line(alloc: Global, scenario: &Scenario) -> AllocResult<String>
    ensures { IfOk result (λ line. string_bytes line ≡ tick_line scenario.now.tick) }
{
    match scenario.tick() {
        Some(tick) => {
            let (count, unit) = (tick.count(), tick.unit().word());
            format!(in alloc; "tick {count} {unit}\n")
        }
        None => Ok(String::new(alloc)),
    }
}

/// Appends the text of a line.
fn push_line(scenario: &Scenario, line: Line, text: &mut Vec<u8>) -> AllocResult<()>
    ensures { OnOk result (text.new.items ≡ text.old.items ++ line_text scenario.now line) }
{
    let line = line_text(*text.allocator(), scenario, line)?;
    text.extend_from_slice(line.as_bytes())
}

/// The text of a line.
fn line_text(alloc: Global, scenario: &Scenario, line: Line) -> AllocResult<String>
    ensures { IfOk result (λ text. string_bytes text ≡ line_text scenario.now line) }
{
    match line {
        Line::Issue { tick, message } => issue_line(alloc, scenario, tick, message),
        Line::Happening(entry) => line_of(alloc, scenario, &entry),
    }
}

/// The line of an issue: tick, sender and message, and byte 10.
fn issue_line(alloc: Global, scenario: &Scenario, tick: u32, message: usize) -> AllocResult<String>
    ensures { IfOk result (λ line. string_bytes line ≡ issue_line scenario.now tick message) }
{
    let sender = sender_word(scenario, sender_of(scenario, message));
    let name = message_name(scenario, message);
    format!(in alloc; "{tick} {sender} issue {name}\n")
}

/// The line of an entry: tick, group, kind, message and stamp, and byte 10.
fn line_of(alloc: Global, scenario: &Scenario, entry: &Entry) -> AllocResult<String>
    ensures { IfOk result (λ line. string_bytes line ≡ line_of scenario.now entry.now) }
{
    let group = group_name(scenario, entry.group);
    let kind = entry.kind.word();
    let message = message_name(scenario, entry.message);
    let stamp_group = group_name(scenario, entry.stamp.group);
    format!(in alloc;
        "{} {group} {kind} {message} {}.{stamp_group}\n",
        entry.tick, entry.stamp.time,
    )
}
