use super::durations::{Length, shown_length, shown_time};
use super::hint::Hint;
use super::part::Part;
use super::quoting::Quoted;
use super::scenario_text::{ScenarioText, part_of};
use convoy_scenario::{
    Duration, GREATEST_AT, GREATEST_DELAY, Key, LONGEST_WAIT, MOST_UNITS, Scenario,
};
use convoy_toml::{PlainNumber, ScenarioTable, WrittenScenario, WrittenTime, common_divisor};
use std::alloc::{AllocError, Global};
use toml::{Table, Value};

/// A time of a scenario text: where it stands, and what is written.
#[derive(Clone, Copy, Drop)]
pub(crate) struct Spell {
    pub(crate) table: ScenarioTable,
    pub(crate) key: Key,
    time: WrittenTime,
}

impl Spell {
    /// The nanoseconds of a duration; None for a number of ticks.
    pub(crate) fn length(&self) -> Option<u64> {
        match self.time {
            WrittenTime::Count(_) => None,
            WrittenTime::Lasting(duration) => Some(duration.nanoseconds()),
        }
    }

    /// The number of ticks, where one is written.
    fn count(&self) -> Option<i64> {
        match self.time {
            WrittenTime::Count(ticks) => Some(ticks),
            WrittenTime::Lasting(_) => None,
        }
    }

    /// How many ticks it would be by a smaller tick than this one that goes into it, where a number counts ticks of
    /// this one.
    fn ticks_by(&self, tick: u64, smaller: u64) -> u64 {
        match self.time {
            WrittenTime::Count(count) => {
                let each = tick.checked_div(smaller).unwrap_or(0);
                u64::try_from(count).unwrap_or(0).saturating_mul(each)
            }
            WrittenTime::Lasting(length) => {
                length.nanoseconds().checked_div(smaller).unwrap_or(0)
            }
        }
    }

    /// How it is written in its table, where that is a duration: at its key, or in the array there.
    pub(crate) fn text_in<'a>(&self, table: &'a Table) -> &'a str {
        let Some(value) = table.get(self.key.word()) else {
            return "";
        };
        match value.as_array() {
            Some(items) => items
                .iter()
                .find(|item| length_in(item) == self.length())
                .and_then(Value::as_str)
                .unwrap_or(""),
            None => value.as_str().unwrap_or(""),
        }
    }

    /// Whether it is the time at this key of this table, and a duration that is no whole number of ticks of that length.
    fn is_part_of_tick(&self, table: ScenarioTable, key: Key, tick: u64) -> bool {
        let is_there = self.table == table && self.key == key;
        is_there
            && self
                .length()
                .is_some_and(|length| !length.is_multiple_of(tick))
    }

    /// The table in which it stands, as a person finds it.
    pub(crate) fn part<'a>(&self, source: ScenarioText<'a>) -> Part<'a> {
        source.part(self.table)
    }
}

/// The nanoseconds of the duration that a value tells.
fn length_in(value: &Value) -> Option<u64> {
    let duration = Duration::read(value.as_str()?.as_bytes())?;
    Some(duration.nanoseconds())
}

/// All times of a scenario, in the order in which faults of them are told.
pub(crate) fn spells_of(
    alloc: Global,
    scenario: &WrittenScenario,
) -> Result<Vec<Spell>, AllocError> {
    let mut spells = Vec::new(alloc);
    add_spell(&mut spells, ScenarioTable::Top, Key::Delay, scenario.delay)?;
    add_spell(&mut spells, ScenarioTable::Top, Key::Least, scenario.least)?;
    for (number, multicast) in scenario.multicasts.iter().enumerate() {
        let table = ScenarioTable::Multicast(number);
        add_spell(&mut spells, table, Key::At, Some(multicast.at))?;
        add_spell(&mut spells, table, Key::Until, multicast.until)?;
    }
    for (number, link) in scenario.links.iter().enumerate() {
        let table = ScenarioTable::Link(number);
        add_spell(&mut spells, table, Key::Least, Some(link.least))?;
        add_spell(&mut spells, table, Key::Most, Some(link.most))?;
    }
    for (number, agreement) in scenario.agreements.iter().enumerate() {
        let table = ScenarioTable::Group(number);
        add_spell(&mut spells, table, Key::Agree, Some(agreement.least))?;
        add_spell(&mut spells, table, Key::Agree, Some(agreement.most))?;
    }
    Ok(spells)
}

/// Adds the time at a key, if one is there.
fn add_spell(
    spells: &mut Vec<Spell>,
    table: ScenarioTable,
    key: Key,
    time: Option<WrittenTime>,
) -> Result<(), AllocError> {
    if let Some(time) = time {
        spells.push(Spell { table, key, time })?;
    }
    Ok(())
}

/// The greatest common divisor of all durations, in nanoseconds; None where there is none above 0.
fn divisor_of(spells: &[Spell]) -> Option<u64> {
    let mut divisor = 0;
    for spell in spells {
        if let Some(length) = spell.length() {
            divisor = common_divisor(divisor, length);
        }
    }
    if divisor == 0 { None } else { Some(divisor) }
}

/// So many nanoseconds, as a hint shows them: `1500 us`.
pub(crate) fn shown(alloc: Global, nanoseconds: u64) -> Result<String, AllocError> {
    match Duration::from_nanoseconds(nanoseconds) {
        Some(duration) => shown_length(alloc, duration),
        None => format!(in alloc; "{nanoseconds} ns"),
    }
}

/// That the duration at a key of one of its tables is no whole number of ticks, and which tick would do.
pub fn hint_for_part_of_tick(
    alloc: Global,
    source: ScenarioText<'_>,
    scenario: &WrittenScenario,
    table: ScenarioTable,
    key: Key,
) -> Hint {
    let (Some(tick), Some(inner)) = (scenario.tick, source.table_at(table)) else {
        return Ok(None);
    };
    let tick = tick.nanoseconds();
    let spells = spells_of(alloc, scenario)?;
    let odd = spells
        .iter()
        .find(|spell| spell.is_part_of_tick(table, key, tick));
    let written = Quoted(odd.map_or("", |spell| spell.text_in(inner)));
    let length = shown(alloc, tick)?;
    let way = way_out(alloc, &spells, tick)?;
    let part = source.part(table);
    format!(in alloc;
        "'{key}' in {part} is {written}, which is no whole number of ticks of {length}: {way}"
    ).map(Some)
}

/// Which tick would do in place of this one, if one does by which no time is too many ticks.
fn way_out(alloc: Global, spells: &[Spell], tick: u64) -> Result<String, AllocError> {
    let Some(divisor) = divisor_of(spells) else {
        return String::from_str(alloc, ROUNDED);
    };
    let has_counts = first_count(spells).is_some();
    let smaller = if has_counts {
        common_divisor(divisor, tick)
    } else {
        divisor
    };
    if !is_length_of_tick(smaller) || has_too_many(spells, tick, smaller) {
        return String::from_str(alloc, ROUNDED);
    }
    let length = shown(alloc, smaller)?;
    let matching = if has_counts { MATCHING } else { "" };
    format!(in alloc; "'tick = \"{length}\"' would do{matching}")
}

/// What to write where no tick would do.
const ROUNDED: &str =
    "write a duration that is one: 'least' and 'at' of a window no longer, 'most' and 'until' no shorter";

/// What to do besides where some times are numbers of ticks of the present length.
const MATCHING: &str = ", with the numbers of ticks to match";

/// Whether a tick may last so many nanoseconds.
fn is_length_of_tick(nanoseconds: u64) -> bool {
    match Duration::from_nanoseconds(nanoseconds) {
        Some(length) => length.count() <= MOST_UNITS,
        None => false,
    }
}

/// Whether a time would be more ticks than it may be, by a smaller tick than this one.
pub(crate) fn has_too_many(spells: &[Spell], tick: u64, smaller: u64) -> bool {
    let mut before = 0;
    for spell in spells {
        let ticks = spell.ticks_by(tick, smaller);
        if ticks > most_ticks(spell.key, before) {
            return true;
        }
        before = ticks;
    }
    false
}

/// How many ticks the time at a key may be at most, where the time before it is so many: the first issue
/// has a limit of its own, and the last, which follows it, may be so much later.
fn most_ticks(key: Key, before: u64) -> u64 {
    match key {
        Key::At => u64::from(GREATEST_AT),
        Key::Until => before.saturating_add(u64::from(LONGEST_WAIT)),
        _ => u64::from(GREATEST_DELAY),
    }
}

/// What a plain number was taken for that stands beside durations in the text from which the scenario was read. None
/// where a tick has no length.
pub fn hint_for_plain_number(
    alloc: Global,
    text: &str,
    scenario: &Scenario,
    plain: PlainNumber,
) -> Hint {
    let Some(tick) = scenario.tick() else {
        return Ok(None);
    };
    let (key, ticks) = (plain.key, plain.ticks);
    let name = match plain.table {
        ScenarioTable::Multicast(number) if number < scenario.message_count() => {
            Some(scenario.message_name(number))
        }
        _ => None,
    };
    let part = part_of(text, plain.table, plain.among, name);
    let time = shown_time(alloc, ticks, Some(tick))?;
    let each = Length(tick);
    format!(in alloc;
        "'{key}' in {part} is the plain number {ticks}, which counts ticks of {each}: {time}"
    ).map(Some)
}

/// Which times are a number of ticks and a duration, where no tick says how they go together.
pub fn hint_for_mixture(
    alloc: Global,
    source: ScenarioText<'_>,
    scenario: &WrittenScenario,
) -> Hint {
    let spells = spells_of(alloc, scenario)?;
    let (Some(count), Some(lasting)) = (first_count(&spells), first_lasting(&spells)) else {
        return Ok(None);
    };
    let (key, part) = (count.key, count.part(source));
    let (other, there) = (lasting.key, lasting.part(source));
    format!(in alloc;
        "'{key}' in {part} is a number of ticks, and '{other}' in {there} is a duration: write 'tick = \"..\"', the length of a tick, or all times as durations"
    ).map(Some)
}

/// Whether one of the times of a scenario is a duration.
pub(crate) fn has_durations(alloc: Global, scenario: &WrittenScenario) -> Result<bool, AllocError> {
    let spells = spells_of(alloc, scenario)?;
    Ok(first_lasting(&spells).is_some())
}

/// The first time that is a number of ticks.
fn first_count(spells: &[Spell]) -> Option<&Spell> {
    spells.iter().find(|spell| spell.count().is_some())
}

/// The first time that is a duration.
fn first_lasting(spells: &[Spell]) -> Option<&Spell> {
    spells.iter().find(|spell| spell.length().is_some())
}
