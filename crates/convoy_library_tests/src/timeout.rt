ghost use Rattle.std.specs.Prelude.{IfOk};
ghost use Rattle.convoy_library_tests.specs.Answers.{IsJudgement};

use super::greatest::{Answer, greatest_latency};
use convoy_library::packets::Instance;
use std::alloc::{AllocError, Global};

/// Whether a timeout is long enough, with latencies in ticks.
#[derive(Clone, Copy, PartialEq, Eq)]
pub enum Judgement {
    /// No schedule has a latency above the timeout.
    Enough,
    /// Some schedule has this latency, which is above the timeout.
    TooShort(u32),
    /// The search ended too early: the greatest latency is `least` or more and at most `most`, and
    /// the timeout is not below `least`, but below `most`.
    Unknown { least: u32, most: u32 },
}

/// Whether the target of a scenario is delivered within the timeout, in ticks after its issue, under
/// every schedule, by a search that spends at most `limit` tickets.
pub fn judge_timeout(
    alloc: Global,
    instance: &Instance,
    timeout: u32,
    limit: u64,
) -> Result<Judgement, AllocError>
    ensures { IfOk result (IsJudgement instance.now timeout) }
{
    let (least, most) = match greatest_latency(alloc, instance, limit)? {
        Answer::Exactly(latency) => (latency, latency),
        Answer::Between { least, most } => (least, most),
    };
    Ok(if timeout < least {
        Judgement::TooShort(least)
    } else if most <= timeout {
        Judgement::Enough
    } else {
        Judgement::Unknown { least, most }
    })
}
