ghost use Rattle.std.specs.Prelude.{◌≡◌, IfOk};
ghost use Rattle.convoy_toml.specs.Reading.{as_written, of_any_target};

use super::around::Around;
use super::target::TargetKey;
use super::written::WrittenTime;
use std::alloc::AllocError;

/// What is asked of a scenario text beside what the text says.
#[derive(Drop)]
pub struct Asked {
    /// Whether the text has to name the target of which the latency is asked.
    pub target: TargetKey,
    /// The deadline of each message to which the text gives none, where there is such: what is no duration counts
    /// ticks.
    pub at_most: Option<WrittenTime>,
    /// How far around the target's issue all other messages are issued, where nothing of that is known: then what the
    /// text says of `at` and `until` is only checked.
    pub around: Option<Around>,
    /// Which case of the text is asked about, where several senders may send a message ([`cases_of_text`](super::cases_of_text)):
    /// none where each message has to have one.
    pub case: Option<u64>,
    /// Whether groups may be replicated by white box: who asks so tells when their replicas have answered
    /// ([`acceptances_of_text`](super::acceptances_of_text)), which the scenario that is read does not.
    pub accept: bool,
}

impl Asked {
    /// Nothing: the text has to name its target and one sender of each message, messages have the deadlines and the issue times
    /// that it gives them, and no group is replicated by white box.
    pub fn as_written() -> Asked
        ensures { result ≡ as_written }
    {
        Asked {
            target: TargetKey::Required,
            at_most: None,
            around: None,
            case: None,
            accept: false,
        }
    }

    /// The same, but the text may leave out its target.
    pub fn of_any_target() -> Asked
        ensures { result ≡ of_any_target }
    {
        Asked {
            target: TargetKey::Optional,
            at_most: None,
            around: None,
            case: None,
            accept: false,
        }
    }
    /// The same, in memory of its own. Fails where memory runs out, and else never.
    pub fn copy(&self) -> Result<Asked, AllocError>
        ensures { IfOk result (λ copy. copy ≡ self.now) }
    {
        Ok(Asked {
            target: self.target.copy()?,
            at_most: self.at_most,
            around: self.around,
            case: self.case,
            accept: self.accept,
        })
    }
}
