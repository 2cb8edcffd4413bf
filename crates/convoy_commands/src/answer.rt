ghost use Rattle.std.specs.Prelude.{◌≡◌};
ghost use Rattle.convoy_commands.specs.Replies.{told_of_answer};

use super::done::Done;
use convoy_certificate::Certificate;
use convoy_packets::Instance;
use convoy_scenario::Scenario;
use convoy_toml::PlainNumber;
use std::marker::Model;

/// What a command answers for a text.
#[derive(Drop)]
pub struct Answer {
    /// How the command ends.
    pub done: Done,
    /// What is written.
    pub text: Vec<u8>,
    /// What was found out on the way, for who wants to say more of it.
    pub known: Option<Known>,
}

/// What a command knows of the scenario that its text gives.
#[derive(Drop)]
pub struct Known {
    pub scenario: Scenario,
    /// Its greatest latency in ticks, where that was found.
    pub greatest: Option<u32>,
    /// The first time that its text writes as a plain number beside durations.
    pub plain: Option<PlainNumber>,
}

/// The scenario that a text gives, with its packets, and its plain number beside durations, of which no contract
/// speaks.
#[derive(Drop)]
pub(crate) struct ReadInstance {
    pub instance: Instance,
    pub plain: Option<PlainNumber>,
}

impl Model for ReadInstance {
    ghost use Rattle.convoy_scenario.specs.Scenario.{Scenario};

    ghost Value = { Scenario };

    ghost view = { λ r. r.instance };
}

impl ReadInstance {
    pub fn scenario(&self) -> &Scenario
        ensures { result.now ≡ self.now }
    {
        self.instance.scenario()
    }
}

impl Answer {
    /// An answer about a scenario of which no greatest latency is told.
    pub fn about(
        done: Done,
        text: Vec<u8>,
        scenario: Scenario,
        plain: Option<PlainNumber>,
    ) -> Answer
        ensures done { result.done ≡ done }
        ensures text { result.text ≡ text }
    {
        Answer {
            done,
            text,
            known: Some(Known {
                scenario,
                greatest: None,
                plain,
            }),
        }
    }

    /// The same answer, and besides what is known of the scenario.
    pub(crate) fn with(self, read: ReadInstance, greatest: Option<u32>) -> Answer
        ensures { told_of_answer result ≡ told_of_answer self }
    {
        Answer {
            done: self.done,
            text: self.text,
            known: Some(Known::of(read, greatest)),
        }
    }

    /// The same answer, and besides what is known by a certificate where it was found to be valid.
    pub fn of_certificate(self, certificate: Certificate) -> Answer
        ensures { told_of_answer result ≡ told_of_answer self }
    {
        match self.done {
            Done::Fine | Done::Differs(_) => {
                let latency = certificate.latency();
                let (instance, ..) = certificate.into_parts();
                let read = ReadInstance {
                    instance,
                    plain: None,
                };
                self.with(read, Some(latency))
            }
            _ => self,
        }
    }
}

impl Known {
    /// What is known of the scenario that a text gives.
    pub(crate) fn of(read: ReadInstance, greatest: Option<u32>) -> Known {
        Known {
            scenario: read.instance.into_scenario(),
            greatest,
            plain: read.plain,
        }
    }
}
