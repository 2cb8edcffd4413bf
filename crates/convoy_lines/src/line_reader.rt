ghost use Rattle.std.specs.Prelude.{◌≡◌, ◌≤◌, ◌^◌, option_copied};
ghost use Rattle.convoy_lines.specs.Labels.{begins_with};
ghost use Rattle.convoy_lines.specs.Places.{place_before, line_at, past_line, upcoming, is_at_end};
ghost use Rattle.convoy_lines.specs.Words.{words_of};

use super::labels::begins_with;
use super::words::cut;
use std::marker::Model;

/// Reads a text line by line: where it stands, and the number of the next line.
///
/// A line is ended by byte 10. Where a call answers None, the reader stands where it stood.
#[derive(Drop)]
pub struct LineReader<'a> {
    rest: &'a [u8],
    number: usize,
}

impl<'a> Model for LineReader<'a> {
    ghost use Rattle.std.specs.Prelude.{◌+◌, ◌≤◌, ◌^◌, length};
    ghost use Rattle.convoy_lines.specs.Places.{Place, place_before};

    ghost Value = { Place };

    ghost view = { λ r. place_before r.rest.now r.number };

    ghost invariant = { λ r. r.number + length r.rest.now ≤ 2 ^ 63 };
}

impl<'a> LineReader<'a> {
    /// A reader at the beginning of a text, before its line 1.
    pub fn over(text: &'a [u8]) -> LineReader<'a>
        ensures { result ≡ place_before text.now 1 }
    {
        LineReader {
            rest: text,
            number: 1,
        }
    }

    /// A further reader at the same place.
    pub fn copy(&self) -> LineReader<'a>
        ensures { result ≡ self.now }
    {
        LineReader {
            rest: self.rest,
            number: self.number,
        }
    }

    /// The number of the next line, from 1.
    pub fn number(&self) -> usize
        ensures value { result ≡ self.now.number }
        ensures bounded { result ≤ 2 ^ 63 }
    {
        self.number
    }

    /// The next line without the byte 10 that ends it; None where it is absent or not ended.
    pub fn line(&mut self) -> Option<&'a [u8]>
        ensures line { option_copied result ≡ line_at self.old }
        ensures place { self.new ≡ past_line self.old }
    {
        let (line, rest) = cut(self.rest, b'\n');
        self.rest = rest?;
        self.number += 1;
        Some(line)
    }

    /// Whether nothing is left to read.
    pub fn at_end(&self) -> bool
        ensures { result ≡ is_at_end self.now }
    {
        self.rest.is_empty()
    }

    /// Whether the first word of what comes next, be it an ended line or not, is this label.
    pub fn begins_with(&self, label: &[u8]) -> bool
        ensures { result ≡ begins_with label.now (words_of (upcoming self.now)) }
    {
        begins_with(self.upcoming(), label)
    }

    /// What comes next, up to a byte 10 or to the end of the text.
    fn upcoming(&self) -> &'a [u8]
        ensures { result.now ≡ upcoming self.now }
    {
        cut(self.rest, b'\n').0
    }
}
