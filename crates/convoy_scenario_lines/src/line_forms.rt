ghost use Rattle.std.specs.Prelude.{◌≡◌, ◌≤◌, ◌==◌, Ok, [], ◌∷◌, map, codes, length, position, option_map, ok_or, IfOk, IfSome};
ghost use Rattle.std.specs.Result.{result_map_both};
ghost use Rattle.convoy_draft.specs.Checks.{is_among};
ghost use Rattle.convoy_scenario_lines.specs.Keeping.{kept_names, kept_destinations, kept_names_in, kept_multicast_in};
ghost use Rattle.convoy_scenario.specs.Memory.{IsUnlessMemory};
ghost use Rattle.convoy_scenario_lines.specs.LineForms.{name_of, named_sender, time_in, tick_in, own_stamps_in, stamps_in, link_in, tick_alone, around_dots, tick_range, issue_in, target_in};

use super::line_fault::LineFault;
use super::version::Version;
use convoy_lines::{Words, number_of, words_after};
use convoy_scenario::{
    DraftLink, DraftMulticast, Duration, MOST_GROUPS, MOST_PLACES, Name, Time, TimeUnit,
};
use std::alloc::{AllocError, Global};

/// How many names of one line are kept at most: one more than there are groups at most, or places, so
/// that a line with more names is one of no scenario, and the names kept of it show why.
pub const MOST_KEPT_NAMES: usize = MOST_GROUPS + 1;

const _: () = prove!(MOST_PLACES < MOST_KEPT_NAMES);

/// A word as the text of a name; one that is not UTF-8, which is no name, as the text of no bytes,
/// which is none, either.
fn text_of(word: &[u8]) -> &str
    ensures { result.now ≡ name_of word.now }
{
    match str::from_utf8(word) {
        Ok(text) => text,
        Err(_) => "",
    }
}

/// A word as a name.
fn name_of(alloc: Global, word: &[u8]) -> Result<Name, AllocError>
    ensures { IfOk result (λ name. name ≡ name_of word.now) }
{
    Name::new(alloc, text_of(word))
}

/// The sender that a word names: None for a client of no named place.
fn named_sender(alloc: Global, word: &[u8]) -> Result<Option<Name>, AllocError>
    ensures { IfOk result (λ sender. sender ≡ named_sender word.now) }
{
    if word == b"client".as_slice() {
        return Ok(None);
    }
    Ok(Some(name_of(alloc, word)?))
}

/// The first of the words that are left, as names.
fn first_names(alloc: Global, words: Words) -> Result<Vec<Name>, AllocError>
    ensures { IfOk result (λ names. names.items ≡ kept_names (map name_of words.entry)) }
{
    let mut words = words;
    let mut names = Vec::new(alloc);
    while let Some(word) = words.next() {
        if names.len() == MOST_KEPT_NAMES {
            return Ok(names);
        }
        names.push(name_of(alloc, word)?)?;
    }
    Ok(names)
}

/// Whether a text is one of the names.
fn is_named(text: &str, names: &[Name]) -> bool
    ensures { result ≡ is_among text.now names.now }
{
    names.iter().any(|name| text == name.as_str())
}

/// One name.
fn alone(alloc: Global, word: &[u8]) -> Result<Vec<Name>, AllocError>
    ensures { IfOk result (λ names. names.items ≡ name_of word.now ∷ []) }
{
    let mut names = Vec::new(alloc);
    names.push(name_of(alloc, word)?)?;
    Ok(names)
}

/// Of the words that are left, as names, the first that is none of the groups, or else the first ones.
fn destinations_of(alloc: Global, groups: &[Name], words: Words) -> Result<Vec<Name>, AllocError>
    ensures { IfOk result (λ names. names.items ≡ kept_destinations groups.now (map name_of words.entry)) }
{
    let mut words = words;
    let mut names = Vec::new(alloc);
    while let Some(word) = words.next() {
        if !is_named(text_of(word), groups) {
            return alone(alloc, word);
        }
        if names.len() < MOST_KEPT_NAMES {
            names.push(name_of(alloc, word)?)?;
        }
    }
    Ok(names)
}

/// How time goes by a line `time`, which has one form for each.
pub fn time_in(line: &[u8]) -> Option<Time>
    ensures { result ≡ time_in line.now }
{
    if line == b"time ticks".as_slice() {
        Some(Time::Ticks)
    } else if line == b"time real".as_slice() {
        Some(Time::Real)
    } else {
        None
    }
}

/// The length of a tick by a line `tick`, which has one form for each.
pub fn tick_in(line: &[u8]) -> Option<Duration>
    ensures { result ≡ tick_in line.now }
{
    let mut words = words_after(line, b"tick")?;
    let count = words.next()?;
    let word = words.next()?;
    let count = number_of(count, u32::MAX)?;
    let unit = TimeUnit::named(word)?;
    let tick = Duration::from_nanoseconds(u64::from(count) * unit.nanoseconds())?;
    if 1 <= count && word == tick.unit().word().as_bytes() && words.are_over() {
        Some(tick)
    } else {
        None
    }
}

/// The names that are kept of a line that begins with that word; `wrong` where the line has not its form.
pub fn names_in(
    alloc: Global,
    label: &[u8],
    line: &[u8],
    wrong: LineFault,
) -> Result<Vec<Name>, LineFault>
    ensures { IsUnlessMemory LineFault.Memory (ok_or (kept_names_in label.now line.now) wrong)
        (result_map_both (λ names. names.items) (λ fault. fault) result) }
{
    let words = words_after(line, label).ok_or(wrong)?;
    let names = first_names(alloc, words)?;
    if names.is_empty() {
        return Err(wrong);
    }
    Ok(names)
}

/// Some(true) where the one word `stamps` is left, which version 3 alone has.
fn own_stamps_in(version: Version, words: Words) -> Option<bool>
    ensures { result ≡ own_stamps_in version words.entry }
{
    match version {
        Version::One | Version::Two => None,
        Version::Three => {
            let mut words = words;
            let word = words.next()?;
            (word == b"stamps".as_slice() && words.are_over()).then_some(true)
        }
    }
}

/// Whether a link is for the own stamps of a group, too, by the words after its range; None where they
/// are others than may stand there.
fn stamps_in(version: Version, words: Words) -> Option<bool>
    ensures { result ≡ stamps_in version words.entry }
{
    if words.are_over() {
        Some(false)
    } else {
        own_stamps_in(version, words)
    }
}

/// The link of a line `link`; `wrong` where the line has not its form in that version.
pub fn link_in(
    alloc: Global,
    version: Version,
    line: &[u8],
    wrong: LineFault,
) -> Result<DraftLink, LineFault>
    ensures { IsUnlessMemory LineFault.Memory (ok_or (link_in version line.now) wrong) result }
{
    let mut words = words_after(line, b"link").ok_or(wrong)?;
    let from = words.next().ok_or(wrong)?;
    let to = words.next().ok_or(wrong)?;
    let least = words.next().ok_or(wrong)?;
    let most = words.next().ok_or(wrong)?;
    let least = number_of(least, u32::from(u16::MAX)).ok_or(wrong)?;
    let most = number_of(most, u32::from(u16::MAX)).ok_or(wrong)?;
    let link = DraftLink {
        sender: named_sender(alloc, from)?,
        to: name_of(alloc, to)?,
        least: i64::from(least),
        most: i64::from(most),
        stamps: stamps_in(version, words).ok_or(wrong)?,
    };
    if link.stamps && link.leads_elsewhere() {
        return Err(wrong);
    }
    Ok(link)
}

/// The tick that a word is, as the first and the last one.
fn tick_alone(word: &[u8]) -> Option<(u32, u32)>
    ensures { result ≡ tick_alone word.now }
{
    let tick = number_of(word, u32::MAX)?;
    Some((tick, tick))
}

/// What stands before the first dot of a word, and what stands after the two dots there; None where
/// there are no two dots in a row.
fn around_dots(word: &[u8]) -> Option<(&[u8], &[u8])>
    ensures { option_map (λ parts. (parts.0.now, parts.1.now)) result ≡ around_dots word.now }
{
    let dot = first_dot(word)?;
    let last = word[dot..].strip_prefix(b"..")?;
    Some((&word[..dot], last))
}

/// The place of the first dot of a word.
fn first_dot(word: &[u8]) -> Option<usize>
    ensures place { result ≡ position (λ byte. byte == 46) word.now }
    ensures within { IfSome result (λ dot. dot ≤ length word.now) }
{
    word.iter().position(|byte| *byte == b'.')
}

/// The first and the last tick of a word `FIRST..LAST`, where the first is before the last.
fn tick_range(word: &[u8]) -> Option<(u32, u32)>
    ensures { result ≡ tick_range word.now }
{
    let (first, last) = around_dots(word)?;
    let first = number_of(first, u32::MAX)?;
    let last = number_of(last, u32::MAX)?;
    (first < last).then_some((first, last))
}

/// The first and the last tick at which a message may be issued, by the word for its issue: where it
/// may wait, version 3 has both.
fn issue_in(version: Version, word: &[u8]) -> Option<(u32, u32)>
    ensures { result ≡ issue_in version word.now }
{
    match version {
        Version::One | Version::Two => tick_alone(word),
        Version::Three => tick_alone(word).or(tick_range(word)),
    }
}

/// The message of a line `multicast`, with what is kept of its destinations; `wrong` where the line has
/// not its form in that version.
pub fn multicast_in(
    alloc: Global,
    version: Version,
    groups: &[Name],
    line: &[u8],
    wrong: LineFault,
) -> Result<DraftMulticast, LineFault>
    ensures { IsUnlessMemory LineFault.Memory
        (ok_or (kept_multicast_in version groups.now line.now) wrong) result }
{
    let mut words = words_after(line, b"multicast").ok_or(wrong)?;
    let name = words.next().ok_or(wrong)?;
    let from = words.next().ok_or(wrong)?;
    let issue = words.next().ok_or(wrong)?;
    let (first, last) = issue_in(version, issue).ok_or(wrong)?;
    Ok(DraftMulticast {
        name: name_of(alloc, name)?,
        sender: named_sender(alloc, from)?,
        to: destinations_of(alloc, groups, words)?,
        at: i64::from(first),
        until: i64::from(last),
    })
}

/// The message and the group of a line `target`; `wrong` where the line has not its form.
pub fn target_in(alloc: Global, line: &[u8], wrong: LineFault) -> Result<(Name, Name), LineFault>
    ensures { IsUnlessMemory LineFault.Memory (ok_or (target_in line.now) wrong) result }
{
    let mut words = words_after(line, b"target").ok_or(wrong)?;
    let message = words.next().ok_or(wrong)?;
    let group = words.next().ok_or(wrong)?;
    if !words.are_over() {
        return Err(wrong);
    }
    Ok((name_of(alloc, message)?, name_of(alloc, group)?))
}
