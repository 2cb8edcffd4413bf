ghost use Rattle.std.specs.Prelude.{◌≡◌};
ghost use Rattle.convoy_streams.specs.Steps.{adds_if, front_of, is_whole, step_of, waits_for};

use super::label::{LONGEST_LABEL, is_label_byte};

/// How much of a divider the line that is being read is.
#[derive(Clone, Copy)]
pub(crate) enum Line {
    Start,
    OneDash,
    TwoDashes,
    /// It is a divider without a label, if it ends here.
    Dashes,
    /// Three dashes and a space, and what has come of a label.
    Named,
    /// It is none, however it goes on.
    Other,
}

/// What a further byte does.
#[derive(Clone, Copy)]
pub(crate) enum Step {
    /// It ends a divider.
    Ends,
    /// The line is still the front of a divider.
    Waits(Line),
    /// It is one more byte of the label.
    Adds,
    /// The line belongs to a job.
    Keeps(Line),
}

impl Line {
    /// The front of a divider that the line is, without what has come of a label.
    pub(crate) fn front(self) -> &'static [u8]
        ensures { result.now ≡ front_of self }
    {
        match self {
            Line::Start | Line::Other => b"",
            Line::OneDash => b"-",
            Line::TwoDashes => b"--",
            Line::Dashes => b"---",
            Line::Named => b"--- ",
        }
    }

    /// Whether the line is a whole divider, where so many bytes of a label have come.
    pub(crate) fn is_whole(self, named: usize) -> bool
        ensures { result ≡ is_whole self named }
    {
        match self {
            Line::Dashes => true,
            Line::Named => named != 0,
            Line::Start | Line::OneDash | Line::TwoDashes | Line::Other => false,
        }
    }

    /// What the next byte does, where so many bytes of a label have come.
    pub(crate) fn step(self, named: usize, byte: u8) -> Step
        ensures { result ≡ step_of self named byte }
    {
        if byte == b'\n' {
            return if self.is_whole(named) {
                Step::Ends
            } else {
                Step::Keeps(Line::Start)
            };
        }
        match self {
            Line::Start => waits_for(byte == b'-', Line::OneDash),
            Line::OneDash => waits_for(byte == b'-', Line::TwoDashes),
            Line::TwoDashes => waits_for(byte == b'-', Line::Dashes),
            Line::Dashes => waits_for(byte == b' ', Line::Named),
            Line::Named => adds_if(is_label_byte(byte) && named < LONGEST_LABEL),
            Line::Other => Step::Keeps(Line::Other),
        }
    }
}

/// What a byte does that is to be the next one of a divider.
fn waits_for(is_next: bool, line: Line) -> Step
    ensures { result ≡ waits_for is_next line }
{
    if is_next {
        Step::Waits(line)
    } else {
        Step::Keeps(Line::Other)
    }
}

/// What a byte does with which a label may go on, or may not.
fn adds_if(may_go_on: bool) -> Step
    ensures { result ≡ adds_if may_go_on }
{
    if may_go_on {
        Step::Adds
    } else {
        Step::Keeps(Line::Other)
    }
}
