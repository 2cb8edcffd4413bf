ghost use Rattle.std.specs.Prelude.{◌≡◌};
ghost use Rattle.convoy_draft.specs.declared.fault.ScenarioFault.TheVariants.{Memory};

use super::duration::{LONGEST_DURATION, MOST_UNITS};
use super::limits::{
    GREATEST_AT, GREATEST_DELAY, GREATEST_WHOLE_DELAY, LONGEST_NAME, LONGEST_WAIT, MOST_GROUPS,
    MOST_LINKS, MOST_MULTICASTS, MOST_PLACES,
};
use std::alloc::{AllocError, AllocFailed};
use std::fmt;
use thiserror::Error;

/// What a fault of shape tells: a key of a scenario text, or that a key is unknown.
#[derive(Clone, Copy, Debug, PartialEq, Eq)]
pub enum Key {
    Time,
    Tick,
    Delay,
    Groups,
    Places,
    Multicast,
    Name,
    From,
    To,
    At,
    Until,
    Within,
    Target,
    Message,
    Group,
    Link,
    Least,
    Most,
    Both,
    Stamps,
    Agree,
    Steps,
    Replicas,
    Reply,
    Outage,
    Schedule,
    Order,
    /// A key that a scenario text may not have.
    Unknown,
}

/// A limit of a scenario.
#[derive(Clone, Copy, Debug, PartialEq, Eq)]
pub enum Limit {
    /// The greatest delay of a packet is from 1 to `GREATEST_DELAY`, and in whole ticks at most
    /// `GREATEST_WHOLE_DELAY`.
    Delay,
    /// In real time the least delay of what goes by no link is 1 or more, and at most D.
    Least,
    /// There are 1 to `MOST_GROUPS` groups.
    Groups,
    /// There are at most `MOST_PLACES` places.
    Places,
    /// There are 1 to `MOST_MULTICASTS` multicasts.
    Multicasts,
    /// A message is issued at a tick from 0 to `GREATEST_AT`, or waits from then on.
    At,
    /// The last tick at which a message may be issued is not before the first, and at most
    /// `LONGEST_WAIT` after it. That of the target is at most `GREATEST_AT`, and its window and that of
    /// any other message are together at most `LONGEST_WAIT` long.
    Until,
    /// There are at most `MOST_LINKS` lines `link`; the least delay of a link is 1 or more, and its
    /// greatest not less and at most D.
    Link,
    /// What the replicas of a group need to agree on an entry takes 1 tick or more, and at its longest no less than at its
    /// shortest.
    Agree,
    /// A tick has a length only where time is real. It is 1 nanosecond or more, at most
    /// `LONGEST_DURATION`, and at most `MOST_UNITS` of its unit.
    Tick,
}

/// Why a text is no scenario. Where it has several faults, the first in the order of these variants
/// is told (docs/FORMATS.md, "Scenario text").
#[derive(Clone, Copy, Debug, PartialEq, Eq, Error)]
pub enum ScenarioFault {
    /// The bytes are not UTF-8, or the text is not TOML 1.1.
    #[error("the text is not TOML")]
    NotToml,
    /// A key is absent, its value is of another kind or is none of its words, or the key is unknown.
    #[error("a key is absent, unknown, or its value is of another kind: {0}")]
    Shape(Key),
    /// A duration is no whole number of ticks. It names the key of the first.
    #[error("a duration is no whole number of ticks: {0}")]
    NotWhole(Key),
    /// A number is outside its limits.
    #[error("over a limit: {0}")]
    OverLimit(Limit),
    /// A name is not of 1 to `LONGEST_NAME` bytes of `a` to `z`, `0` to `9`, `_` and `-` with a
    /// letter first, or a group or a place is named `client`.
    #[error("a name is not one of 1 to {longest} bytes a to z, 0 to 9, _ and -, with a letter first", longest = LONGEST_NAME)]
    BadName,
    /// Two groups or places, or two messages, have one name, or two links lead from one sender to one group.
    #[error("two groups or two messages have one name, or two links lead from one sender to one group")]
    DoubleName,
    /// A destination, the target's group or the end to which a link leads is no group, or a sender is neither a group
    /// nor a place.
    #[error("a sender, a destination, the target's group or an end of a link is no group")]
    UnknownGroup,
    /// A message goes nowhere.
    #[error("a message has no destination")]
    NoDestination,
    /// A message names a destination twice.
    #[error("a message names a destination twice")]
    DoubleDestination,
    /// The target's message is no message.
    #[error("the target's message is not known")]
    UnknownTarget,
    /// The target's message does not go to the target's group.
    #[error("the target's message does not go to the target's group")]
    TargetNotAddressed,
    /// In real time something goes from one place to another, and no range is written for it: neither a
    /// link nor the least delay of what goes by none.
    #[error("in real time a packet travels whose range is not written")]
    NoRange,
    /// Memory ran out, which says nothing of the text.
    #[error("out of memory")]
    Memory,
}

impl Key {
    ghost use Rattle.std.specs.Prelude.{◌≡◌};
    ghost use Rattle.convoy_draft.specs.Keys.{key_word};

    /// The key as a scenario text has it, and `unknown` for any other.
    pub fn word(self) -> &'static str
        ensures { result.now ≡ key_word self }
    {
        match self {
            Key::Time => "time",
            Key::Tick => "tick",
            Key::Delay => "delay",
            Key::Groups => "groups",
            Key::Places => "places",
            Key::Multicast => "multicast",
            Key::Name => "name",
            Key::From => "from",
            Key::To => "to",
            Key::At => "at",
            Key::Until => "until",
            Key::Within => "within",
            Key::Target => "target",
            Key::Message => "message",
            Key::Group => "group",
            Key::Link => "link",
            Key::Least => "least",
            Key::Most => "most",
            Key::Both => "both",
            Key::Stamps => "stamps",
            Key::Agree => "agree",
            Key::Steps => "steps",
            Key::Replicas => "replicas",
            Key::Reply => "reply",
            Key::Outage => "outage",
            Key::Schedule => "schedule",
            Key::Order => "order",
            Key::Unknown => "unknown",
        }
    }
}

impl fmt::Display for Key {
    fn fmt<W: fmt::Write>(&self, f: &mut fmt::Formatter<W>) -> fmt::Result {
        f.pad(self.word())
    }
}

impl fmt::Display for Limit {
    fn fmt<W: fmt::Write>(&self, f: &mut fmt::Formatter<W>) -> fmt::Result {
        match self {
            Limit::Delay => write!(
                f,
                "the greatest delay is 1 to {GREATEST_DELAY}, and in whole ticks 1 to {GREATEST_WHOLE_DELAY}"
            ),
            Limit::Least => write!(
                f,
                "the least delay of what goes by no link is 1 or more, and at most the greatest delay"
            ),
            Limit::Groups => write!(f, "there are 1 to {MOST_GROUPS} groups"),
            Limit::Places => write!(f, "there are at most {MOST_PLACES} places"),
            Limit::Multicasts => write!(f, "there are 1 to {MOST_MULTICASTS} multicasts"),
            Limit::At => write!(f, "a message is issued at a tick from 0 to {GREATEST_AT}"),
            Limit::Until => write!(
                f,
                "a message is issued at most {LONGEST_WAIT} ticks after the first tick at which it may be"
            ),
            Limit::Link => write!(
                f,
                "there are at most {MOST_LINKS} links, each with 1 <= least <= most <= delay"
            ),
            Limit::Agree => write!(
                f,
                "replicas agree on an entry in 1 tick or more, and no later than the greatest time that is written"
            ),
            Limit::Tick => write!(
                f,
                "where time is real a tick may have a length, above 0 and at most {LONGEST_DURATION} ns and {MOST_UNITS} of its unit"
            ),
        }
    }
}

impl From<AllocError> for ScenarioFault {
    ghost from_gives = { λ _ fault. fault ≡ Memory };

    fn from(_error: AllocError) -> ScenarioFault {
        ScenarioFault::Memory
    }
}

impl<T: Drop> From<AllocFailed<T>> for ScenarioFault {
    ghost from_gives = { λ _ fault. fault ≡ Memory };

    fn from(_error: AllocFailed<T>) -> ScenarioFault {
        ScenarioFault::Memory
    }
}
