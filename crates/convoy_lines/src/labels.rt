ghost use Rattle.std.specs.Prelude.{◌≡◌};
ghost use Rattle.convoy_lines.specs.Labels.{is_spaced, begins_with, words_after, number_in};
ghost use Rattle.convoy_lines.specs.Words.{words_of};

use super::words::{Words, number_of};

/// Whether the first word of a line is this label.
pub fn begins_with(line: &[u8], label: &[u8]) -> bool
    ensures { result ≡ begins_with label.now (words_of line.now) }
{
    match Words::of(line).next() {
        Some(word) => word == label,
        None => false,
    }
}

/// The words of a line after its label; None where it has another label, or two spaces in a row, or a
/// space at its end.
pub fn words_after<'a>(line: &'a [u8], label: &[u8]) -> Option<Words<'a>>
    ensures { result ≡ words_after label.now line.now }
{
    let mut words = Words::of(line);
    let first = words.next()?;
    (first == label && is_spaced(line)).then_some(words)
}

/// Whether exactly one space stands between two words of a line: none of them is empty.
fn is_spaced(line: &[u8]) -> bool
    ensures { result ≡ is_spaced (words_of line.now) }
{
    let mut words = Words::of(line);
    while let Some(word) = words.next() {
        if word.is_empty() {
            return false;
        }
    }
    true
}

/// The number of a line `LABEL NUMBER`.
pub fn number_in(line: &[u8], label: &[u8]) -> Option<u32>
    ensures { result ≡ number_in label.now line.now }
{
    let mut words = words_after(line, label)?;
    let number = number_of(words.next()?, u32::MAX)?;
    words.are_over().then_some(number)
}
