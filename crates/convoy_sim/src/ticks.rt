ghost use Rattle.std.specs.Prelude.{◌≡◌, ◌<◌, length};
ghost use Rattle.convoy_scenario.specs.WellFormed.{IsScenario};
ghost use Rattle.convoy_packets.specs.Assignment.{IsAssignment};
ghost use Rattle.convoy_sim.specs.Scheduled.{Scheduled};
ghost use Rattle.convoy_sim.specs.Times.{arrive, issue, settle};
ghost use Rattle.convoy_sim.specs.Moments.{arrival_rank, commit_rank};

use convoy_scenario::Scenario;

/// When the messages of a scenario arrive at groups and are committed there under a schedule, in
/// ticks, and the ranks of these among what happens in the same tick: all that its latency is
/// computed from.
pub trait Ticks {
    ghost scheduled: { Self → Scheduled };

    /// The scenario.
    fn scenario(&self) -> &Scenario
        ensures value { result.now ≡ (scheduled self.now).scenario }
        ensures lawful { IsScenario (scheduled self.now).scenario }
        ensures assignment { IsAssignment (scheduled self.now).scenario
            (scheduled self.now).schedule };

    /// The tick at which the message is issued.
    fn issue(&self, message: usize) -> u32
        requires { message < length (scheduled self.now).scenario.multicasts }
        ensures { result ≡ issue (scheduled self.now).scenario (scheduled self.now).schedule message };

    /// The tick at which the message arrives at the group.
    fn arrival(&self, message: usize, group: usize) -> u32
        requires message { message < length (scheduled self.now).scenario.multicasts }
        requires group { group < length (scheduled self.now).scenario.groups }
        ensures { result
            ≡ arrive (scheduled self.now).scenario (scheduled self.now).schedule message group };

    /// The tick at which the message is committed at the group.
    fn settling(&self, message: usize, group: usize) -> u32
        requires message { message < length (scheduled self.now).scenario.multicasts }
        requires group { group < length (scheduled self.now).scenario.groups }
        ensures { result
            ≡ settle (scheduled self.now).scenario (scheduled self.now).schedule message group };

    /// The rank of the arrival of the message at the group.
    fn arrival_rank(&self, message: usize, group: usize) -> u8
        requires message { message < length (scheduled self.now).scenario.multicasts }
        requires group { group < length (scheduled self.now).scenario.groups }
        ensures { result
            ≡ arrival_rank (scheduled self.now).scenario (scheduled self.now).schedule message group };

    /// The rank of the commit of the message at the group.
    fn commit_rank(&self, message: usize, group: usize) -> u8
        requires message { message < length (scheduled self.now).scenario.multicasts }
        requires group { group < length (scheduled self.now).scenario.groups }
        ensures { result
            ≡ commit_rank (scheduled self.now).scenario (scheduled self.now).schedule message group };
}
