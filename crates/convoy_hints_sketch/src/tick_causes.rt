use super::hint::Hint;
use super::quoting::Quoted;
use super::scenario_text::ScenarioText;
use super::times::{Spell, has_too_many, shown, spells_of};
use convoy_toml::{WrittenScenario, common_divisor};
use std::alloc::{AllocError, Global};

/// How many durations are tried at most as the one that makes a tick so short.
const MOST_TRIED: usize = 32;

/// The hint, and after it which duration makes the tick so short, where the length of a tick is not written.
pub fn with_cause_of_tick(
    alloc: Global,
    source: ScenarioText<'_>,
    scenario: &WrittenScenario,
    hint: String,
) -> Result<String, AllocError> {
    if scenario.tick.is_some() {
        return Ok(hint);
    }
    match cause_of_tick(alloc, source, &spells_of(alloc, scenario)?)? {
        Some(cause) => format!(in alloc; "{hint}; the tick is so short for {cause}"),
        None => Ok(hint),
    }
}

/// For which duration the tick is so short, of those with the most digits: the one without which a tick would do, or else
/// the first. None where there are no durations.
fn cause_of_tick(alloc: Global, source: ScenarioText<'_>, spells: &[Spell]) -> Hint {
    let finest = finest_of(alloc, spells)?;
    let Some(first) = finest.first() else {
        return Ok(None);
    };
    for spell in finest.iter().take(MOST_TRIED) {
        if let Some(divisor) = divisor_without(spells, spell) {
            return cause_of_one(alloc, source, spell, divisor).map(Some);
        }
    }
    let first = shown_spell(alloc, source, first)?;
    format!(in alloc; "durations as {first}").map(Some)
}

/// That one duration makes the tick so short, and how long it would be without.
fn cause_of_one(
    alloc: Global,
    source: ScenarioText<'_>,
    spell: &Spell,
    divisor: u64,
) -> Result<String, AllocError> {
    let spell = shown_spell(alloc, source, spell)?;
    let length = shown(alloc, divisor)?;
    format!(in alloc; "{spell}: without that it would be {length}")
}

/// Where a time stands, and how it is written.
fn shown_spell(
    alloc: Global,
    source: ScenarioText<'_>,
    spell: &Spell,
) -> Result<String, AllocError> {
    let (key, part) = (spell.key, spell.part(source));
    let written = match source.table_at(spell.table) {
        Some(table) => spell.text_in(table),
        None => "",
    };
    let written = Quoted(written);
    format!(in alloc; "'{key}' in {part}, {written}")
}

/// The greatest common divisor of the durations that are not as long as that one, where it is a tick that would do.
fn divisor_without(spells: &[Spell], odd: &Spell) -> Option<u64> {
    let mut divisor = 0;
    for spell in spells {
        if spell.length() != odd.length() {
            divisor = common_divisor(divisor, spell.length().unwrap_or(0));
        }
    }
    let does = divisor > 0 && !has_too_many(spells, divisor, divisor);
    does.then_some(divisor)
}

/// The durations with the most digits.
fn finest_of(alloc: Global, spells: &[Spell]) -> Result<Vec<Spell>, AllocError> {
    let least = least_grain(spells);
    let mut finest = Vec::new(alloc);
    for spell in spells {
        if grain_of(spell) == Some(least) {
            finest.push(*spell)?;
        }
    }
    Ok(finest)
}

/// The least grain of all durations.
fn least_grain(spells: &[Spell]) -> u64 {
    let mut least = u64::MAX;
    for spell in spells {
        least = least.min(grain_of(spell).unwrap_or(least));
    }
    least
}

/// The greatest power of ten that divides the nanoseconds of a duration, as far as a duration has digits; None for a
/// number of ticks.
fn grain_of(spell: &Spell) -> Option<u64> {
    let length = spell.length()?;
    let mut grain: u64 = 1;
    for _ in 0..15 {
        let next = grain.saturating_mul(10);
        if !length.is_multiple_of(next) {
            return Some(grain);
        }
        grain = next;
    }
    Some(grain)
}
