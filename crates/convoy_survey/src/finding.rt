ghost use Rattle.std.specs.Prelude.{◌≡◌};
ghost use Rattle.convoy_survey.specs.Findings.{answer_word, cause_of, is_fault, is_open, least_of, most_of, nodes_of, rival_in, rival_of, tied_in, tied_of, told_finding};
ghost use Rattle.convoy_survey.specs.Judgements.{finding_verdict, is_finding_beyond, is_finding_open};

use super::judgements::{is_beyond, is_open_by, verdict_at};
use convoy_commands::Verdict;
use std::alloc::AllocError;

/// Why the target is late in the run of one schedule.
#[derive(Clone, Copy)]
pub struct Cause {
    /// The message that holds the target back up to its delivery, by number; none where the target is
    /// delivered as it is committed.
    pub rival: Option<usize>,
    /// The message after which the target gets its stamp in a tie, by number: where time is real, the first
    /// that comes to the group of that stamp in the same tick as the target, and before it.
    pub tied: Option<usize>,
}

/// What a search finds of the latency of one message at one group.
#[derive(Clone, Copy)]
pub enum Finding {
    /// The greatest latency, in ticks; why it is so late in a schedule that has it; and how many nodes the
    /// tree of the certificate has that shows it.
    Greatest {
        latency: u32,
        cause: Cause,
        nodes: usize,
    },
    /// The search did not end. The greatest latency is at least and at most that, in ticks; and why it is so
    /// late in a schedule that has the least.
    Open {
        least: u32,
        most: u32,
        cause: Cause,
    },
    /// Memory ran out, which says nothing of the latency.
    OutOfMemory,
}

/// A message at a group that it goes to, both by number, with what was found.
#[derive(Clone, Copy)]
pub struct Surveyed {
    pub message: usize,
    pub group: usize,
    pub finding: Finding,
}

impl Finding {
    /// What is told where a search answered so: what it found, or that memory ran out, where that was the answer.
    pub fn told(answer: Result<Finding, AllocError>) -> Finding
        ensures { result ≡ told_finding answer }
    {
        match answer {
            Ok(finding) => finding,
            Err(AllocError) => Finding::OutOfMemory,
        }
    }

    /// The words for what is known: of a fault those of its line.
    pub fn answer(self) -> &'static str
        ensures { result.now ≡ answer_word self }
    {
        match self {
            Finding::Greatest { .. } => "greatest",
            Finding::Open { .. } => "open",
            Finding::OutOfMemory => "fault 11 out of memory",
        }
    }

    /// What the greatest latency is at least, in ticks, if that is known.
    pub fn least(self) -> Option<u32>
        ensures { result ≡ least_of self }
    {
        match self {
            Finding::Greatest { latency, .. } => Some(latency),
            Finding::Open { least, .. } => Some(least),
            Finding::OutOfMemory => None,
        }
    }

    /// What the greatest latency is at most, in ticks, if that is known.
    pub fn most(self) -> Option<u32>
        ensures { result ≡ most_of self }
    {
        match self {
            Finding::Greatest { latency, .. } => Some(latency),
            Finding::Open { most, .. } => Some(most),
            Finding::OutOfMemory => None,
        }
    }

    /// Why the target is so late, if that is known.
    pub fn cause(self) -> Option<Cause>
        ensures { result ≡ cause_of self }
    {
        match self {
            Finding::Greatest { cause, .. } | Finding::Open { cause, .. } => Some(cause),
            Finding::OutOfMemory => None,
        }
    }

    /// The message that holds the target back, by number, if there is one and it is known.
    pub fn rival(self) -> Option<usize>
        ensures { result ≡ rival_of self }
    {
        rival_in(self.cause())
    }

    /// The message after which the target gets its stamp in a tie, by number, if there is one and it is known.
    pub fn tied(self) -> Option<usize>
        ensures { result ≡ tied_of self }
    {
        tied_in(self.cause())
    }

    /// How many nodes the tree has that shows the greatest latency, where there is one.
    pub fn nodes(self) -> Option<usize>
        ensures { result ≡ nodes_of self }
    {
        match self {
            Finding::Greatest { nodes, .. } => Some(nodes),
            Finding::Open { .. } | Finding::OutOfMemory => None,
        }
    }

    /// Whether the search did not end.
    pub fn is_open(self) -> bool
        ensures { result ≡ is_open self }
    {
        match self {
            Finding::Open { .. } => true,
            Finding::Greatest { .. } | Finding::OutOfMemory => false,
        }
    }

    /// The verdict on what was found by a deadline in ticks, where there is one and something was found.
    pub fn verdict(self, deadline: Option<u32>) -> Option<Verdict>
        ensures { result ≡ finding_verdict deadline self }
    {
        verdict_at(deadline, self.least(), self.most())
    }

    /// Whether what was found is beyond a deadline in ticks, where there is one.
    pub fn is_beyond(self, deadline: Option<u32>) -> bool
        ensures { result ≡ is_finding_beyond deadline self }
    {
        is_beyond(self.verdict(deadline))
    }

    /// Whether it is not known if a deadline in ticks is kept, or where there is none whether the search did not end.
    pub fn is_open_by(self, deadline: Option<u32>) -> bool
        ensures { result ≡ is_finding_open deadline self }
    {
        is_open_by(self.verdict(deadline), self.is_open())
    }

    /// Whether nothing was found, for a fault.
    pub fn is_fault(self) -> bool
        ensures { result ≡ is_fault self }
    {
        match self {
            Finding::OutOfMemory => true,
            Finding::Greatest { .. } | Finding::Open { .. } => false,
        }
    }
}

/// The message that holds the target back by a cause that may not be known.
pub(crate) fn rival_in(cause: Option<Cause>) -> Option<usize>
    ensures { result ≡ rival_in cause }
{
    match cause {
        Some(cause) => cause.rival,
        None => None,
    }
}

/// The message after which the target gets its stamp in a tie, by a cause that may not be known.
pub(crate) fn tied_in(cause: Option<Cause>) -> Option<usize>
    ensures { result ≡ tied_in cause }
{
    match cause {
        Some(cause) => cause.tied,
        None => None,
    }
}
