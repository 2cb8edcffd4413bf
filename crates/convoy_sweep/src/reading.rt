//! Settings as they are written.

ghost use Rattle.std.specs.Prelude.{◌≡◌, ◌++◌, Some, IfOk, IfSome, codes};
ghost use Rattle.convoy_sweep.specs.Keys.{key_name};
ghost use Rattle.convoy_sweep.specs.Settings.{IsSettingText, setting_text, written_time};

use super::fault::UnreadSetting;
use super::kinds::{LAST_TICK, Setting, SweepKey};
use convoy_lines::number_of;
use convoy_scenario::{Duration, Name};
use convoy_toml::WrittenTime;
use std::alloc::Global;

impl Setting {
    /// The setting that a text writes as `KEY=FROM..TO/STEP`, such as `transfer.at=0 ms..10 ms/0.1 ms`. KEY is `delay`,
    /// `MESSAGE.at`, `MESSAGE.until`, `FROM-TO.least` or `FROM-TO.most`, with names of whatever letters; the others are
    /// numbers of ticks, or durations as scenario texts write them.
    ///
    /// `UnreadSetting::Form` where the text has no such form, and `Key` or `Time` where one of its parts has none;
    /// `Memory` where memory runs out.
    pub fn read(alloc: Global, text: &str) -> Result<Setting, UnreadSetting>
        ensures { IfOk result (IsSettingText text.now) }
    {
        let Some((key, from, to, step)) = parts_of(text) else {
            return Err(UnreadSetting::Form);
        };
        let key = read_key(alloc, key)?;
        let from = read_time(from)?;
        let to = read_time(to)?;
        let step = read_time(step)?;
        Ok(Setting {
            key,
            from,
            to,
            step,
        })
    }
}

/// The key, and the words for its values.
fn parts_of(text: &str) -> Option<(&str, &str, &str, &str)>
    ensures { IfSome result (λ parts. text.now ≡ setting_text parts.0.now parts.1.now parts.2.now parts.3.now) }
{
    let (key, values) = text.split_once('=')?;
    let (from, others) = around_points(values)?;
    let (to, step) = others.split_once('/')?;
    Some((key, from, to, step))
}

/// What stands before the first two points of a text, and what stands after them.
fn around_points(text: &str) -> Option<(&str, &str)>
    ensures { IfSome result (λ parts. text.now ≡ parts.0.now ++ codes ".." ++ parts.1.now) }
{
    text.split_once("..")
}

/// The key that a text names.
fn read_key(alloc: Global, text: &str) -> Result<SweepKey, UnreadSetting>
    ensures { IfOk result (λ key. key_name key ≡ text.now) }
{
    if text == "delay" {
        return Ok(SweepKey::Delay);
    }
    let Some((name, word)) = text.split_once('.') else {
        return Err(UnreadSetting::Key);
    };
    let name = Name::new(alloc, name)?;
    match word {
        "at" => Ok(SweepKey::At(name)),
        "until" => Ok(SweepKey::Until(name)),
        "least" => Ok(SweepKey::Least(name)),
        "most" => Ok(SweepKey::Most(name)),
        _ => Err(UnreadSetting::Key),
    }
}

/// The time that a word tells: a number of ticks, or a duration as texts write it.
fn read_time(word: &str) -> Result<WrittenTime, UnreadSetting>
    ensures { IfOk result (λ time. written_time word.now ≡ Some time) }
{
    let bytes = word.as_bytes();
    if let Some(ticks) = number_of(bytes, LAST_TICK) {
        return Ok(WrittenTime::Count(i64::from(ticks)));
    }
    match Duration::read(bytes) {
        Some(duration) => Ok(WrittenTime::Lasting(duration)),
        None => Err(UnreadSetting::Time),
    }
}
