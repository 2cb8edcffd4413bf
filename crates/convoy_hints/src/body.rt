use convoy_certificate::{Form, Version, form_of};
use convoy_hints_sketch::Quoted;
use convoy_lines::LineReader;
use std::fmt;

/// What stands in a certificate from its latency on, where its text has its form.
#[derive(Clone, Copy, Drop)]
pub(crate) struct Body<'a> {
    /// The lines of the text that are at hand, from its first on.
    pub(crate) text: &'a str,
    /// Whether these are all.
    pub(crate) is_whole: bool,
    /// The stated latency.
    pub(crate) latency: u32,
    /// The number of the line `latency`, from 1. The schedule follows.
    pub(crate) latency_line: usize,
    /// How many lines stand before the first node.
    pub(crate) head: usize,
}

/// A line of a certificate, as a person finds it: `line 11, "s 0 1",`, or `line 11` alone.
#[derive(Clone, Copy, Drop)]
pub(crate) struct Line<'a> {
    /// The number of the line, from 1.
    pub(crate) number: usize,
    /// None where it is not at hand.
    pub(crate) text: Option<&'a str>,
}

impl fmt::Display for Line<'_> {
    fn fmt<W: fmt::Write>(&self, f: &mut fmt::Formatter<W>) -> fmt::Result {
        let number = self.number;
        match self.text {
            Some(text) => {
                let text = Quoted(text);
                write!(f, "line {number}, {text},")
            }
            None => write!(f, "line {number}"),
        }
    }
}

impl Line<'_> {
    /// The packet that the line splits, and after how many ticks; None where it is no split or not at
    /// hand.
    pub(crate) fn split(&self) -> Option<(usize, u16)> {
        split_of(self.text?)
    }
}

impl<'a> Body<'a> {
    /// The body of a certificate of which that many bytes are at hand, all if it is whole; None where
    /// its schedule is not among them.
    pub(crate) fn of(text: &'a [u8], is_whole: bool) -> Option<Body<'a>> {
        let text = std::str::from_utf8(text).ok()?;
        let text = if is_whole {
            text
        } else {
            text.rsplit_once('\n')?.0
        };
        let before = text.lines().position(|line| line.starts_with("latency "))?;
        let latency_line = before.saturating_add(1);
        let latency = text.lines().nth(before)?.strip_prefix("latency ")?;
        let _schedule = text.lines().nth(latency_line)?;
        let schedule_line = latency_line.saturating_add(1);
        let head = if has_order(text.as_bytes()) {
            schedule_line.saturating_add(1)
        } else {
            schedule_line
        };
        Some(Body {
            text,
            is_whole,
            latency: latency.parse().ok()?,
            latency_line,
            head,
        })
    }

    /// The line of the node of that number, from 0.
    pub(crate) fn line_of(&self, node: usize) -> Line<'a> {
        let before = self.head.saturating_add(node);
        Line {
            number: before.saturating_add(1),
            text: self.text.lines().nth(before),
        }
    }
}

/// Whether a certificate with that text has a line `order` after its schedule: it is in real time.
pub(crate) fn has_order(text: &[u8]) -> bool {
    let mut reader = LineReader::over(text);
    let _ = reader.line();
    says_time(text) && matches!(reader.line(), Some(b"time real"))
}

/// Whether the lines of a certificate with that text say how time goes: it is of version 4 or 5.
pub(crate) fn says_time(text: &[u8]) -> bool {
    matches!(
        form_of(text),
        Form::Certificate(Some(Version::Four | Version::Five))
    )
}

/// Whether splits by order and point leaves in real time may stand in a certificate with that text: it is of
/// version 5.
pub(crate) fn decides_ties(text: &[u8]) -> bool {
    matches!(form_of(text), Form::Certificate(Some(Version::Five)))
}

/// Whether a line is a split: of a packet, or by the order of two moments.
pub(crate) fn is_split(line: &str) -> bool {
    split_of(line).is_some() || line.starts_with("o ")
}

/// The packet that a line splits, and after how many ticks; None where it is no such split.
pub(crate) fn split_of(line: &str) -> Option<(usize, u16)> {
    let (packet, at) = line.strip_prefix("s ")?.split_once(' ')?;
    Some((packet.parse().ok()?, at.parse().ok()?))
}
