use super::agenda::Agenda;
use super::moment::{Moment, MomentKind};
use super::timestamp::Timestamp;
use convoy_packets::{PLACES, place};
use convoy_scenario::{MOST_GROUPS, MOST_MULTICASTS};
use std::alloc::{AllocError, Global};
use std::marker::Model;

/// The clocks of the groups and the stamps that they have given, once some moments have been read:
/// the greatest stamp of each message, and the time of its stamp at each group, 0 where it has none.
#[derive(Drop)]
pub(crate) struct Stamps {
    clocks: [u64; MOST_GROUPS],
    finals: [Timestamp; MOST_MULTICASTS],
    times: [u64; PLACES],
}

impl Model for Stamps {
    ghost use Rattle.convoy_sim.specs.StampTables.{StampTable};

    ghost Value = { StampTable };

    ghost view = { λ s. record { clocks = s.clocks; finals = s.finals; times = s.times } };
}

impl Stamps {
    ghost use Rattle.std.specs.Prelude.{◌≡◌, ◌<◌, ◌+◌, ◌^◌, ◌≤◌, All, IfOk, take, slice_index, slice_index_or};
    ghost use Rattle.convoy_sim.specs.Stamps.{no_stamp};
    ghost use Rattle.convoy_packets.specs.Order.{place};
    ghost use Rattle.convoy_sim.specs.StampTables.{no_stamps, with_arrival, with_commit, with_moment, with_moments, is_ahead, IsBelow};

    /// No clock has moved, and no stamp is given.
    #[tactic(auto, unfolding(crate::specs::StampTables::no_stamps))]
    fn new() -> Stamps
        ensures { result ≡ no_stamps }
    {
        Stamps {
            clocks: [0; MOST_GROUPS],
            finals: [Timestamp::NONE; MOST_MULTICASTS],
            times: [0; PLACES],
        }
    }

    /// The stamps that are given in the moments of an agenda, read from first to last.
    pub(crate) fn of(agenda: &Agenda) -> Stamps
        requires { All (λ x. x.message < MOST_MULTICASTS × x.group < MOST_GROUPS) agenda.now }
        ensures { result ≡ with_moments no_stamps agenda.now }
    {
        let mut stamps = Stamps::new();
        for at in 0..agenda.len() {
            stamps.read(agenda.moment(at));
        }
        stamps
    }

    /// Reads one more moment.
    fn read(&mut self, moment: Moment)
        requires message { moment.message < MOST_MULTICASTS }
        requires group { moment.group < MOST_GROUPS }
        requires room { slice_index self.old.clocks moment.group + 1 < 2 ^ 64 }
        ensures { self.new ≡ with_moment self.old moment }
    {
        match moment.kind {
            MomentKind::Arrival => self.arrive(moment.message, moment.group),
            MomentKind::Commit => self.commit(moment.message, moment.group),
        }
    }

    /// A message arrives at a group, which raises its clock and gives a stamp.
    fn arrive(&mut self, message: usize, group: usize)
        requires message { message < MOST_MULTICASTS }
        requires group { group < MOST_GROUPS }
        requires room { slice_index self.old.clocks group + 1 < 2 ^ 64 }
        ensures { self.new ≡ with_arrival self.old message group }
    {
        let time = self.clocks[group] + 1;
        self.clocks[group] = time;
        self.finals[message] = self.finals[message].later(Timestamp { time, group });
        self.times[place(message, group)] = time;
    }

    /// A message is committed at a group: its clock follows.
    fn commit(&mut self, message: usize, group: usize)
        requires message { message < MOST_MULTICASTS }
        requires group { group < MOST_GROUPS }
        ensures { self.new ≡ with_commit self.old message group }
    {
        let time = self.finals[message].time;
        self.clocks[group] = self.clocks[group].max(time);
    }

    /// The greatest stamp that is given to a message.
    pub(crate) fn greatest(&self, message: usize) -> Timestamp
        requires { message < MOST_MULTICASTS }
        ensures { result ≡ slice_index_or self.now.finals message no_stamp }
    {
        self.finals[message]
    }

    /// The greatest stamps that are given to the first messages.
    pub(crate) fn finals(
        &self,
        alloc: Global,
        messages: usize,
    ) -> Result<Vec<Timestamp>, AllocError>
        requires { messages ≤ MOST_MULTICASTS }
        ensures { IfOk result (λ finals. finals.items ≡ take messages self.now.finals) }
    {
        Vec::from_slice(alloc, &self.finals[..messages])
    }

    /// The time of the stamp of a message at a group, 0 where it has none.
    pub(crate) fn time(&self, message: usize, group: usize) -> u64
        requires message { message < MOST_MULTICASTS }
        requires group { group < MOST_GROUPS }
        ensures { result ≡ slice_index self.now.times (place message group) }
    {
        self.times[place(message, group)]
    }

    /// Whether a message has a stamp at a group that is less than that one.
    pub(crate) fn is_ahead(&self, message: usize, group: usize, last: Timestamp) -> bool
        requires message { message < MOST_MULTICASTS }
        requires group { group < MOST_GROUPS }
        ensures { result ≡ is_ahead self.now group last message }
    {
        let time = self.time(message, group);
        0 < time && Timestamp { time, group }.is_less(last)
    }
}
