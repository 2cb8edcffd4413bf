ghost use Rattle.std.specs.Prelude.{◌≡◌, ◌≤◌, ◌<◌, not, length, position, IfSome};
ghost use Rattle.convoy_draft.specs.Durations.{after_point, count_of, digit_of, digits_after, digits_before, duration_of, is_number_byte, number_in, unit_length, unit_named, unit_of, unit_of_text, unit_word, within_longest, without_space};
ghost use Rattle.convoy_draft.specs.declared.duration.TheConstants.{LONGEST_DURATION};

use std::marker::Model;

/// The longest duration, in nanoseconds.
pub const LONGEST_DURATION: u64 = 1_000_000_000_000_000;

/// Of how many of its unit a tick is at most.
pub const MOST_UNITS: u64 = 4_294_967_295;

/// A unit of durations.
#[derive(Clone, Copy, PartialEq, Eq)]
pub enum TimeUnit {
    Seconds,
    Milliseconds,
    Microseconds,
    Nanoseconds,
}

impl TimeUnit {
    /// The unit that the word names, if it names one.
    pub fn named(word: &[u8]) -> Option<TimeUnit>
        ensures { result ≡ unit_named word.now }
    {
        match word {
            [b's'] => Some(TimeUnit::Seconds),
            [b'm', b's'] => Some(TimeUnit::Milliseconds),
            [b'u', b's'] => Some(TimeUnit::Microseconds),
            [b'n', b's'] => Some(TimeUnit::Nanoseconds),
            _ => None,
        }
    }

    /// The unit in which a text tells a duration, as `ms` where that is `1.5 ms`, if it names one after what may be a
    /// number.
    pub fn of_text(text: &[u8]) -> Option<TimeUnit>
        ensures { result ≡ unit_of_text text.now }
    {
        let end = number_end(text)?;
        TimeUnit::named(without_space(&text[end..]))
    }

    /// The word for the unit in a text: `s`, `ms`, `us` or `ns`.
    pub fn word(self) -> &'static str
        ensures { result.now ≡ unit_word self }
    {
        match self {
            TimeUnit::Seconds => "s",
            TimeUnit::Milliseconds => "ms",
            TimeUnit::Microseconds => "us",
            TimeUnit::Nanoseconds => "ns",
        }
    }

    /// How many nanoseconds one of the unit has.
    pub fn nanoseconds(self) -> u64
        ensures value { result ≡ unit_length self }
        ensures bounded { (1 ≤ result) × (result ≤ 1000000000) }
    {
        match self {
            TimeUnit::Seconds => 1_000_000_000,
            TimeUnit::Milliseconds => 1_000_000,
            TimeUnit::Microseconds => 1_000,
            TimeUnit::Nanoseconds => 1,
        }
    }
}

/// A time that passes: a whole number of nanoseconds, at most `LONGEST_DURATION`.
#[derive(Clone, Copy, PartialEq, Eq)]
pub struct Duration {
    nanoseconds: u64,
}

impl Model for Duration {
    ghost use Rattle.std.specs.Prelude.{ℕ, ◌≤◌};
    ghost use Rattle.convoy_draft.specs.declared.duration.TheConstants.{LONGEST_DURATION};

    ghost Value = { ℕ };

    ghost view = { λ d. d.nanoseconds };

    ghost inverse = { λ v. record { nanoseconds = v } };

    ghost invariant = { λ d. d.nanoseconds ≤ LONGEST_DURATION };
}

impl Duration {
    /// The duration of so many nanoseconds, unless it is too long.
    pub fn from_nanoseconds(nanoseconds: u64) -> Option<Duration>
        ensures { result ≡ within_longest nanoseconds }
    {
        if nanoseconds <= LONGEST_DURATION {
            Some(Duration { nanoseconds })
        } else {
            None
        }
    }

    /// How many nanoseconds it has.
    pub fn nanoseconds(self) -> u64
        ensures value { result ≡ self }
        ensures bounded { result ≤ LONGEST_DURATION }
    {
        self.nanoseconds
    }

    /// The greatest unit of which it is a whole number.
    pub fn unit(self) -> TimeUnit
        ensures { result ≡ unit_of self }
    {
        if self.nanoseconds.is_multiple_of(1_000_000_000) {
            TimeUnit::Seconds
        } else if self.nanoseconds.is_multiple_of(1_000_000) {
            TimeUnit::Milliseconds
        } else if self.nanoseconds.is_multiple_of(1_000) {
            TimeUnit::Microseconds
        } else {
            TimeUnit::Nanoseconds
        }
    }

    /// How many of that unit it is.
    pub fn count(self) -> u64
        ensures value { result ≡ count_of self }
        ensures bounded { result ≤ LONGEST_DURATION }
    {
        self.nanoseconds / self.unit().nanoseconds()
    }

    /// The duration that a text tells: a number, with or without digits after a point, perhaps a space,
    /// and the word for a unit (docs/FORMATS.md, "Durations"). None where the text is not of this form,
    /// where it tells parts of a nanosecond, and where it tells more than `LONGEST_DURATION`.
    #[tactic(auto, unfolding(crate::specs::Durations::duration_of))]
    pub fn read(text: &[u8]) -> Option<Duration>
        ensures { result ≡ duration_of text.now }
    {
        let end = number_end(text)?;
        let unit = TimeUnit::named(without_space(&text[end..]))?;
        let nanoseconds = number_in(unit.nanoseconds(), &text[..end])?;
        Some(Duration { nanoseconds })
    }
}

/// The place of the first byte that is none of a number.
fn number_end(text: &[u8]) -> Option<usize>
    ensures value { result ≡ position (λ c. not (is_number_byte c)) text.now }
    ensures within { IfSome result (λ end. end < length text.now) }
{
    text.iter().position(|byte| !is_number_byte(*byte))
}

/// Whether it is one of the bytes of which numbers are made: the digits, and the point.
fn is_number_byte(byte: u8) -> bool
    ensures { result ≡ is_number_byte byte }
{
    byte.is_ascii_digit() || byte == b'.'
}

/// The text without the space at its front, if there is one.
fn without_space(text: &[u8]) -> &[u8]
    ensures { result.now ≡ without_space text.now }
{
    match text {
        [b' ', rest @ ..] => rest,
        _ => text,
    }
}

/// What a number tells, in nanoseconds, where 1 stands for `one` of them.
fn number_in(one: u64, text: &[u8]) -> Option<u64>
    requires { one ≤ 1000000000 }
    ensures value { result ≡ number_in one text.now }
    ensures bounded { IfSome result (λ nanoseconds. nanoseconds ≤ LONGEST_DURATION) }
{
    let (first, _) = text.split_first()?;
    if !first.is_ascii_digit() {
        return None;
    }
    digits_before(one, text)
}

/// What is told by digits up to a point, and by those after it.
fn digits_before(one: u64, text: &[u8]) -> Option<u64>
    requires { one ≤ 1000000000 }
    ensures value { result ≡ digits_before one 0 text.now }
    ensures bounded { IfSome result (λ nanoseconds. nanoseconds ≤ LONGEST_DURATION) }
{
    let mut total: u64 = 0;
    let mut rest = text;
    while let Some((byte, tail)) = rest.split_first() {
        if *byte == b'.' {
            return after_point(one, total, tail);
        }
        total = within_longest(total * 10 + digit(*byte)? * one)?;
        rest = tail;
    }
    Some(total)
}

/// What is told by digits after a point, of which there is at least one, added to `before`.
fn after_point(one: u64, before: u64, text: &[u8]) -> Option<u64>
    requires one { one ≤ 1000000000 }
    requires before { before ≤ LONGEST_DURATION }
    ensures value { result ≡ after_point one before text.now }
    ensures bounded { IfSome result (λ nanoseconds. nanoseconds ≤ LONGEST_DURATION) }
{
    if text.is_empty() {
        return None;
    }
    digits_after(one, before, text)
}

/// What is told by digits of which the first counts tenths of `one`, added to `before`. Digits that
/// count less than a nanosecond have to be 0.
fn digits_after(one: u64, before: u64, text: &[u8]) -> Option<u64>
    requires one { one ≤ 1000000000 }
    requires before { before ≤ LONGEST_DURATION }
    ensures value { result ≡ digits_after one before text.now }
    ensures bounded { IfSome result (λ nanoseconds. nanoseconds ≤ LONGEST_DURATION) }
{
    let mut worth = one;
    let mut total = before;
    let mut rest = text;
    while let Some((byte, tail)) = rest.split_first() {
        let count = digit(*byte)?;
        if worth < 10 && count != 0 {
            return None;
        }
        worth /= 10;
        total = within_longest(total + count * worth)?;
        rest = tail;
    }
    Some(total)
}

/// What a digit counts.
fn digit(byte: u8) -> Option<u64>
    ensures value { result ≡ digit_of byte }
    ensures small { IfSome result (λ digit. digit ≤ 9) }
{
    if byte.is_ascii_digit() {
        Some(u64::from(byte - b'0'))
    } else {
        None
    }
}

/// The number, unless it is more nanoseconds than a duration may have.
fn within_longest(nanoseconds: u64) -> Option<u64>
    ensures value { result ≡ within_longest nanoseconds }
    ensures bounded { IfSome result (λ within. within ≤ LONGEST_DURATION) }
{
    if nanoseconds <= LONGEST_DURATION {
        Some(nanoseconds)
    } else {
        None
    }
}
