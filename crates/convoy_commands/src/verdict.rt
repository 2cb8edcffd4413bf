//! How latencies keep their deadlines.

ghost use Rattle.std.specs.Prelude.{◌≡◌};
ghost use Rattle.convoy_commands.specs.Verdicts.{deadline_at, end_of_verdict, judged, margin_of, verdict_of, verdict_word};

use super::done::Done;

/// Whether a latency that is known to be at least and at most so much keeps a deadline.
#[derive(Clone, Copy, PartialEq, Eq)]
pub enum Verdict {
    /// It does: no schedule has a latency above the deadline.
    Within,
    /// It does not: some schedule has one above it.
    Beyond,
    /// Neither is known.
    Undecided,
}

impl Verdict {
    /// The verdict on a greatest latency that is at least and at most so many ticks, by a deadline in ticks.
    pub fn of(deadline: u32, least: u32, most: u32) -> Verdict
        ensures { result ≡ verdict_of deadline least most }
    {
        if most <= deadline {
            Verdict::Within
        } else if least <= deadline {
            Verdict::Undecided
        } else {
            Verdict::Beyond
        }
    }

    /// The word for it.
    pub fn word(self) -> &'static str
        ensures { result.now ≡ verdict_word self }
    {
        match self {
            Verdict::Within => "within",
            Verdict::Beyond => "beyond",
            Verdict::Undecided => "undecided",
        }
    }

    /// How a command with this verdict ends.
    pub fn end(self) -> Done
        ensures { result ≡ end_of_verdict self }
    {
        match self {
            Verdict::Within => Done::Fine,
            Verdict::Beyond => Done::Beyond,
            Verdict::Undecided => Done::Open,
        }
    }
}

/// By how many ticks at least a latency that is at least and at most so many ticks keeps a deadline or is beyond it;
/// None where neither is known.
pub fn margin_of(deadline: u32, least: u32, most: u32) -> Option<u32>
    ensures { result ≡ margin_of deadline least most }
{
    match Verdict::of(deadline, least, most) {
        Verdict::Within => Some(deadline - most),
        Verdict::Beyond => Some(least - deadline),
        Verdict::Undecided => None,
    }
}

/// How a command ends: where there is a deadline, as the verdict says, and else as it does without one.
pub fn judged(deadline: Option<u32>, least: u32, most: u32, end: Done) -> Done
    ensures { result ≡ judged deadline least most end }
{
    match deadline {
        Some(deadline) => Verdict::of(deadline, least, most).end(),
        None => end,
    }
}

/// The deadline of the message of that number, if it has one.
pub fn deadline_at(deadlines: &[Option<u32>], message: usize) -> Option<u32>
    ensures { result ≡ deadline_at deadlines.now message }
{
    match deadlines.get(message) {
        Some(deadline) => *deadline,
        None => None,
    }
}
