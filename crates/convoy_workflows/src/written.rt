ghost use Rattle.convoy_workflows.specs.Rules.{DraftCause};
ghost use Rattle.convoy_workflows.specs.Shape.{WrittenAim, WrittenCause, WrittenStep, WrittenWorkflow};

use convoy_causes::Event;
use convoy_scenario::Name;
use convoy_toml::{WrittenMulticast, WrittenScenario};
use std::marker::Model;

/// What a message follows as it is written.
#[derive(Drop)]
pub(crate) struct WrittenCause {
    /// The name of the message that it follows.
    pub(crate) message: Name,
    /// The event of that message.
    pub(crate) event: Event,
}

impl Model for WrittenCause {
    ghost Value = { WrittenCause };

    ghost view = { λ c. record { message = c.message; event = c.event } };
}

/// A message as it is written.
#[derive(Drop)]
pub(crate) struct WrittenStep {
    /// The message, whose times count from what it follows, where it follows another.
    pub(crate) multicast: WrittenMulticast,
    /// What it follows.
    pub(crate) cause: Option<WrittenCause>,
}

impl Model for WrittenStep {
    ghost Value = { WrittenStep };

    ghost view = { λ s. record { message = s.multicast; cause = s.cause } };
}

/// A target as it is written.
#[derive(Drop)]
pub(crate) struct WrittenAim {
    /// The name of the message of which the latency is asked.
    pub(crate) message: Name,
    /// The name of the group at which it is asked.
    pub(crate) group: Name,
    /// The name of the message from whose issue the time counts, where one is written.
    pub(crate) origin: Option<Name>,
}

impl Model for WrittenAim {
    ghost Value = { WrittenAim };

    ghost view = { λ a. record { message = a.message; group = a.group; origin = a.origin } };
}

/// A workflow as it is written.
#[derive(Drop)]
pub(crate) struct WrittenWorkflow {
    /// Its messages, groups and links, in which the times of a message that follows another count from that.
    pub(crate) scenario: WrittenScenario,
    /// Of each message what it follows, if it follows another.
    pub(crate) causes: Vec<Option<WrittenCause>>,
    /// The name of the message from whose issue the time counts, where one is written.
    pub(crate) origin: Option<Name>,
}

impl Model for WrittenWorkflow {
    ghost Value = { WrittenWorkflow };

    ghost view = { λ w. record { scenario = w.scenario; causes = w.causes.items; origin = w.origin } };
}

/// What a message follows, by numbers, before any rule is asked of it.
#[derive(Drop)]
pub(crate) struct DraftCause {
    /// The number of the message that follows.
    pub(crate) effect: usize,
    /// The number of the message that it follows, if one of the name stands before it.
    pub(crate) message: Option<usize>,
    /// The event of that message.
    pub(crate) event: Event,
    /// Whether that comes where the message is sent.
    pub(crate) at_sender: bool,
    /// The number of the group at which the event is.
    pub(crate) group: usize,
    /// How many ticks after the event the message is issued at least, within the limits or not.
    pub(crate) least: i64,
    /// How many ticks after it at most, within the limits or not.
    pub(crate) most: i64,
}

impl Model for DraftCause {
    ghost Value = { DraftCause };

    ghost view = { λ c. record {
      effect = c.effect;
      message = c.message;
      event = c.event;
      at_sender = c.at_sender;
      group = c.group;
      least = c.least;
      most = c.most;
    } };
}
