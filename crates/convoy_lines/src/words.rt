ghost use Rattle.std.specs.Prelude.{◌≡◌, ◌<◌, ◌≤◌, ◌==◌, take, length, option_copied, option_map, IfNone, slice_index, MatchOption};
ghost use Rattle.convoy_lines.specs.Words.{Lacks, joined_by, words_of, next_word, number_of};

use std::marker::Model;

/// The words of a line that are left to read: what stands between its spaces. A line of no bytes has
/// one word, of no bytes.
#[derive(Drop)]
pub struct Words<'a> {
    rest: Option<&'a [u8]>,
}

impl<'a> Model for Words<'a> {
    ghost use Rattle.std.specs.Prelude.{List, ℕ, option_copied};
    ghost use Rattle.convoy_lines.specs.Words.{words_left};

    ghost Value = { List (List ℕ) };

    ghost view = { λ w. words_left (option_copied w.rest) };
}

impl<'a> Words<'a> {
    /// The words of a line.
    pub fn of(line: &'a [u8]) -> Words<'a>
        ensures { result ≡ words_of line.now }
    {
        Words { rest: Some(line) }
    }

    /// The next word; None where no word is left.
    pub fn next(&mut self) -> Option<&'a [u8]>
        ensures word { next_word self.old ≡ option_map (λ word. (word.now, self.new)) result }
        ensures none { IfNone result (self.new ≡ self.old) }
    {
        let line = self.rest?;
        let (word, rest) = cut(line, b' ');
        self.rest = rest;
        Some(word)
    }

    /// Whether no word is left.
    pub fn are_over(&self) -> bool
        ensures { result ≡ (length self.now == 0) }
    {
        self.rest.is_none()
    }
}

/// What stands before the first such byte, and what stands after it; all, where there is none.
pub fn cut(bytes: &[u8], byte: u8) -> (&[u8], Option<&[u8]>)
    ensures front { Lacks byte result.0.now }
    ensures whole { bytes.now ≡ joined_by byte result.0.now (option_copied result.1) }
{
    match position_of(bytes, byte) {
        Some(i) => (&bytes[..i], Some(&bytes[i + 1..])),
        None => (bytes, None),
    }
}

/// The place of the first such byte.
fn position_of(bytes: &[u8], byte: u8) -> Option<usize>
    ensures { MatchOption result (Lacks byte bytes.now)
        (λ i. (i < length bytes.now) × Lacks byte (take i bytes.now) × (slice_index bytes.now i ≡ byte)) }
{
    bytes.iter().position(|b| *b == byte)
}

/// The number that a word is in decimal digits, without sign and without leading zeros; None where it
/// is none, or is greater than `most`.
pub fn number_of(word: &[u8], most: u32) -> Option<u32>
    ensures { result ≡ number_of most word.now }
{
    match word {
        [] | [b'0', _, ..] => None,
        _ => digits_up_to(word, most),
    }
}

ghost use Rattle.std.specs.Prelude.{nat_le, ◌&&◌, Some, None, if◌then◌else◌};
ghost use Rattle.std.specs.Str.{all_ascii_digits};
ghost use Rattle.std.specs.Str.Parse.{digits_value};

fn digits_up_to(word: &[u8], most: u32) -> Option<u32>
    ensures { result ≡ (if all_ascii_digits word.now && nat_le (digits_value 10 word.now) most
        then Some (digits_value 10 word.now) else None) }
{
    let mut value: u64 = 0;
    for byte in word {
        if !byte.is_ascii_digit() {
            return None;
        }
        value = value * 10 + u64::from(*byte - b'0');
        if value > u64::from(most) {
            return None;
        }
    }
    Some(value as u32)
}
