//! What a command line asks beside a text: the target of a scenario, a deadline, and whether all is asked around the
//! target; how long outages last; how far replicas are; and the skew of the clocks of a trace.

use super::escaping::Escaped;
use clap::ArgMatches;
use convoy_command_line::GREATEST_SPAN;
use convoy_fits_told::Skew;
use convoy_outages::Outage;
use convoy_ranges::{RangesAsked, Speed};
use convoy_scenario::{Duration, Name};
use convoy_sweep::{Setting, Sweep, UnreadSetting};
use convoy_task_list::outage_by;
use convoy_toml::{Around, Asked, TargetKey, WrittenTime};
use std::alloc::{AllocError, Global};

/// Why the words of a command line ask for nothing.
#[derive(Drop)]
pub(crate) enum Unasked {
    /// A value of an option is none: the words are rejected with this text.
    Rejected(String),
    /// Memory ran out.
    Memory,
}

impl From<AllocError> for Unasked {
    fn from(_error: AllocError) -> Unasked {
        Unasked::Memory
    }
}

/// How `--at-most` stands in a text for a person, and what can be written there.
const AT_MOST: (&str, &str) = (
    "--at-most <TIME>",
    "write a number of ticks, from 1 on, or a duration above 0, as '400 ms'",
);

/// The same of `--around`.
const AROUND: (&str, &str) = (
    "--around[=<SPAN>]",
    "write a number of ticks, from 1 on, or a duration above 0, as '400 ms'; without a value it is the greatest delay",
);

/// The same of `--skew`.
const SKEW: (&str, &str) = (
    "--skew <TIME>",
    "write a duration above 0, as '3 ms', or a number of ticks, from 1 on",
);

/// The same of `--outage`.
const OUTAGE: (&str, &str) = (
    "--outage <SPAN>",
    "write a duration above 0, as '5 s', or a number of ticks, from 1 on",
);

/// The same of `--accept`.
const ACCEPT: (&str, &str) = (
    "--accept <SPAN>",
    "write a duration, as '3 ms', or a number of ticks",
);

/// The same of `--target`.
const TARGET: (&str, &str) = (
    "--target <MESSAGE@GROUP>",
    "write the name of a message and that of a group, with one '@' between them, as 't@a'",
);

/// What the command of that name asks of its text beside what that says.
pub(crate) fn asked_of(
    alloc: Global,
    name: &str,
    given: &ArgMatches<'_>,
) -> Result<Asked, Unasked> {
    Ok(Asked {
        target: target_of(alloc, name, given)?,
        at_most: at_most_of(alloc, given)?,
        around: around_of(alloc, given)?,
        case: None,
        accept: false,
    })
}

/// The target: the one that is given, or else the text's, which may be missing where each message is asked for.
fn target_of(alloc: Global, name: &str, given: &ArgMatches<'_>) -> Result<TargetKey, Unasked> {
    match given.get_str("target") {
        Some(word) => target_in(alloc, word),
        None if asks_for_several(name, given) => Ok(TargetKey::Optional),
        None => Ok(TargetKey::Required),
    }
}

/// Whether several messages are asked for, whatever the target is.
fn asks_for_several(name: &str, given: &ArgMatches<'_>) -> bool {
    match name {
        "survey" => !given.get_flag("without"),
        "budget" | "order" | "plan" | "check" => given.get_flag("all"),
        "ceiling" => given.get_flag("all") || given.get_str("group").is_some(),
        _ => false,
    }
}

/// The target that a word tells: two names with one `@` between them.
fn target_in(alloc: Global, word: &str) -> Result<TargetKey, Unasked> {
    match word.split_once('@') {
        Some((message, group)) if is_name(message) && is_name(group) => Ok(TargetKey::Named {
            message: Name::new(alloc, message)?,
            group: Name::new(alloc, group)?,
        }),
        _ => Err(rejected(alloc, TARGET, word)),
    }
}

/// Whether a side of a target is a name, be it one of a scenario or not.
fn is_name(side: &str) -> bool {
    !side.is_empty() && !side.contains('@')
}

/// The deadline that is given for messages to which the text gives none, if one is.
fn at_most_of(alloc: Global, given: &ArgMatches<'_>) -> Result<Option<WrittenTime>, Unasked> {
    let Some(word) = given.get_str("at-most") else {
        return Ok(None);
    };
    match time_in(word) {
        Some(time) => Ok(Some(time)),
        None => Err(rejected(alloc, AT_MOST, word)),
    }
}

/// How far around its target a scenario is asked about, if it is.
fn around_of(alloc: Global, given: &ArgMatches<'_>) -> Result<Option<Around>, Unasked> {
    let Some(word) = given.get_str("around") else {
        return Ok(None);
    };
    if word == GREATEST_SPAN {
        return Ok(Some(Around::Greatest));
    }
    match time_in(word) {
        Some(span) => Ok(Some(Around::By(span))),
        None => Err(rejected(alloc, AROUND, word)),
    }
}

/// By how much the clocks of a trace may be wrong: by nothing, where it is not given.
pub(crate) fn skew_of(alloc: Global, given: &ArgMatches<'_>) -> Result<Skew, Unasked> {
    let Some(word) = given.get_str("skew") else {
        return Ok(Skew::Ticks(0));
    };
    match time_in(word) {
        Some(time) => Ok(skew_by(time)),
        None => Err(rejected(alloc, SKEW, word)),
    }
}

/// The skew that a time is.
fn skew_by(time: WrittenTime) -> Skew {
    match time {
        WrittenTime::Count(ticks) => Skew::Ticks(ticks.unsigned_abs()),
        WrittenTime::Lasting(duration) => Skew::Lasting(duration),
    }
}

/// How long outages last in all, where they are asked for.
pub(crate) fn outage_of(alloc: Global, given: &ArgMatches<'_>) -> Result<Option<Outage>, Unasked> {
    let Some(word) = given.get_str("outage") else {
        return Ok(None);
    };
    match time_in(word) {
        Some(time) => Ok(Some(outage_by(time))),
        None => Err(rejected(alloc, OUTAGE, word)),
    }
}

/// How far replicas are from the leaders of their groups, where it is asked what their answers cost.
pub(crate) fn accept_of(
    alloc: Global,
    given: &ArgMatches<'_>,
) -> Result<Option<WrittenTime>, Unasked> {
    let Some(word) = given.get_str("accept") else {
        return Ok(None);
    };
    match any_time_in(word) {
        Some(time) => Ok(Some(time)),
        None => Err(rejected(alloc, ACCEPT, word)),
    }
}

/// The time above 0 that a word tells: a number of ticks, by digits alone, or a duration as scenario texts write it.
fn time_in(word: &str) -> Option<WrittenTime> {
    if word.bytes().all(|byte| byte.is_ascii_digit()) {
        return count_in(word);
    }
    let duration = Duration::read(word.as_bytes())?;
    if duration.nanoseconds() >= 1 {
        Some(WrittenTime::Lasting(duration))
    } else {
        None
    }
}

/// The number of ticks above 0 that digits tell.
fn count_in(digits: &str) -> Option<WrittenTime> {
    match digits.parse::<i64>() {
        Ok(ticks) if ticks >= 1 => Some(WrittenTime::Count(ticks)),
        _ => None,
    }
}

/// The time that a word tells, likewise, which may be 0.
fn any_time_in(word: &str) -> Option<WrittenTime> {
    if word.bytes().all(|byte| byte.is_ascii_digit()) {
        return word.parse::<i64>().ok().map(WrittenTime::Count);
    }
    Duration::read(word.as_bytes()).map(WrittenTime::Lasting)
}

/// How `--set` stands in a text for a person, and what can be written there.
const SET: (&str, &str) = (
    "--set <KEY=FROM..TO/STEP>",
    "write a key and its values, as 't.at=0..100/10' or 'client-a.most=\"5 ms..20 ms/1 ms\"', once or twice",
);

/// The keys of a sweep with their values: of one `--set`, or of two.
pub(crate) fn sweep_of(alloc: Global, given: &ArgMatches<'_>) -> Result<Sweep, Unasked> {
    match given.get_strs("set") {
        Some([first]) => Ok(Sweep {
            first: setting_in(alloc, first)?,
            second: None,
        }),
        Some([first, second]) => Ok(Sweep {
            first: setting_in(alloc, first)?,
            second: Some(setting_in(alloc, second)?),
        }),
        Some([_, _, third, ..]) => Err(rejected(alloc, SET, third)),
        _ => Err(rejected(alloc, SET, "")),
    }
}

/// What can be written for `--set` where a curve is asked for.
const CURVE_SET: (&str, &str) = (
    "--set <KEY=FROM..TO/STEP>",
    "a curve is of one key: write '--set' once, or for pairs of values another format than 'svg'",
);

/// The key of a curve with its values: of one `--set`.
pub(crate) fn curve_of(alloc: Global, given: &ArgMatches<'_>) -> Result<Setting, Unasked> {
    match given.get_strs("set") {
        Some([one]) => setting_in(alloc, one),
        Some([_, second, ..]) => Err(rejected(alloc, CURVE_SET, second)),
        _ => Err(rejected(alloc, SET, "")),
    }
}

/// The key with its values that a word tells.
fn setting_in(alloc: Global, word: &str) -> Result<Setting, Unasked> {
    match Setting::read(alloc, word) {
        Ok(setting) => Ok(setting),
        Err(UnreadSetting::Memory) => Err(Unasked::Memory),
        Err(UnreadSetting::Form | UnreadSetting::Key | UnreadSetting::Time) => {
            Err(rejected(alloc, SET, word))
        }
    }
}

/// How `--tick` and `--least` stand in a text for a person, and what can be written there.
const TICK: (&str, &str) = ("--tick <DURATION>", "write a duration above 0, as '0.1 ms'");

const LEAST: (&str, &str) = (
    "--least <DURATION>",
    "write a duration of a tick or longer, as '0.3 ms'",
);

/// By which rules round trips become ranges.
pub(crate) fn ranges_of(alloc: Global, given: &ArgMatches<'_>) -> Result<RangesAsked, Unasked> {
    let margin = given.get_one("margin").unwrap_or(0);
    let speed = match given.get_str("speed") {
        Some("air") => Speed::Air,
        _ => Speed::Fibre,
    };
    let tick = duration_in(alloc, TICK, given.get_str("tick").unwrap_or("0.1 ms"))?;
    let (least, word) = match given.get_str("least") {
        Some(word) => (Some(duration_in(alloc, LEAST, word)?), word),
        None => (None, ""),
    };
    match RangesAsked::new(margin, speed, least, tick) {
        Some(asked) => Ok(asked),
        None => Err(rejected(alloc, LEAST, word)),
    }
}

/// The duration above 0 that a word tells.
fn duration_in(
    alloc: Global,
    option: (&'static str, &'static str),
    word: &str,
) -> Result<Duration, Unasked> {
    match Duration::read(word.as_bytes()) {
        Some(duration) if duration.nanoseconds() >= 1 => Ok(duration),
        _ => Err(rejected(alloc, option, word)),
    }
}

/// That a word is no value of that option, in the form of clap's own texts; or that memory ran out.
fn rejected(alloc: Global, (option, tip): (&'static str, &'static str), word: &str) -> Unasked {
    let word = Escaped(word);
    let text = format!(in alloc;
        "error: invalid value '{word}' for '{option}'\n\n  tip: {tip}\n\nFor more information, try '--help'.\n"
    );
    match text {
        Ok(text) => Unasked::Rejected(text),
        Err(AllocError) => Unasked::Memory,
    }
}
