use crate::progress::Progress;
use crate::timestamp::Timestamp;
use convoy_packets::place;
use convoy_scenario::MOST_GROUPS;
use std::marker::Model;

/// What a group does as a message comes: it proposes a stamp to all groups that the message goes to
/// (docs/PROTOCOL.md, rule 1).
#[derive(Clone, Copy, PartialEq, Eq)]
pub struct Proposal {
    /// The tick at which the message comes.
    pub tick: u32,
    /// The local stamp of the message at the group.
    pub stamp: Timestamp,
}

/// A run of a scenario under a schedule: what each group does with each message, and when
/// (docs/PROTOCOL.md). Messages and groups go by their numbers in the scenario, times are in ticks.
#[derive(Drop)]
pub struct Run {
    finals: Vec<Timestamp>,
    progress: Vec<Progress>,
    latency: u32,
}

impl Model for Run {
    ghost use Rattle.convoy_sim.specs.Run.{Run, IsTabled};

    ghost Value = { Run };

    ghost view = { λ r. record { finals = r.finals.items; progress = r.progress.items; latency = r.latency } };

    ghost invariant = { λ r. IsTabled r.finals.items r.progress.items };
}

impl Run {
    ghost use Rattle.std.specs.Prelude.{◌≡◌};
    ghost use Rattle.convoy_sim.specs.Run.{IsTabled, progress_of, proposed_of, committed_of, delivered_of, final_stamp_of};

    /// The run that these tables tell of, with the latency of the target.
    pub(crate) fn new(finals: Vec<Timestamp>, progress: Vec<Progress>, latency: u32) -> Self
        requires { IsTabled finals.items progress.items }
        ensures { result ≡ record { finals = finals.items; progress = progress.items; latency = latency } }
    {
        Run {
            finals,
            progress,
            latency,
        }
    }

    /// What the group proposes for the message, and when; none where the message does not go to the
    /// group.
    pub fn proposed(&self, message: usize, group: usize) -> Option<Proposal>
        ensures { result ≡ proposed_of self.now message group }
    {
        let here = self.progress(message, group);
        let tick = here.came?;
        let stamp = Timestamp {
            time: here.stamp,
            group,
        };
        Some(Proposal { tick, stamp })
    }

    /// The tick at which the group commits the message; none where the message does not go to the
    /// group.
    pub fn committed(&self, message: usize, group: usize) -> Option<u32>
        ensures { result ≡ committed_of self.now message group }
    {
        self.progress(message, group).committed
    }

    /// The tick at which the group delivers the message; none where the message does not go to the
    /// group.
    pub fn delivered(&self, message: usize, group: usize) -> Option<u32>
        ensures { result ≡ delivered_of self.now message group }
    {
        self.progress(message, group).delivered
    }

    /// The final stamp of the message; none where the scenario has no message of that number.
    pub fn final_stamp(&self, message: usize) -> Option<Timestamp>
        ensures { result ≡ final_stamp_of self.now message }
    {
        self.finals.get(message).copied()
    }

    /// The latency that the scenario asks for, in ticks: from the issue of its target message to
    /// the delivery of it at its target group.
    pub fn latency(&self) -> u32
        ensures { result ≡ self.now.latency }
    {
        self.latency
    }

    /// How far the message has come at the group.
    fn progress(&self, message: usize, group: usize) -> Progress
        ensures { result ≡ progress_of self.now message group }
    {
        if group < MOST_GROUPS && message < self.finals.len() {
            self.progress[place(message, group)]
        } else {
            Progress::NOWHERE
        }
    }
}
