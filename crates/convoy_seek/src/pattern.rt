ghost use Rattle.std.specs.Prelude.{◌*◌, ◌<◌, ◌≤◌};
ghost use Rattle.convoy_packets.specs.Assignment.{IsAssignment, IsWithin};

use crate::chance::Chance;
use crate::comings::Comings;
use crate::waits::{some_may_wait, wait_past_commit, wait_to_be_met};
use convoy_packets::{Instance, Packet, Schedule};
use convoy_scenario::Scenario;

/// An end of the range of a packet.
#[derive(Clone, Copy, PartialEq, Eq)]
pub enum End {
    Least,
    Most,
}

impl End {
    /// The greatest end for an even number, else the least.
    pub fn numbered(number: usize) -> End {
        if number % 2 == 0 {
            End::Most
        } else {
            End::Least
        }
    }

    /// The delay at this end of a range, in ticks.
    pub fn of(self, range: (u16, u16)) -> u16
        requires { range.0 ≤ range.1 }
        ensures { IsWithin range result }
    {
        match self {
            End::Least => range.0,
            End::Most => range.1,
        }
    }
}

/// How many choices of ends there are.
const CHOICES: usize = 32;

/// How many choices of waits there are.
const STAYS: usize = 4;

/// How long the messages other than the rival wait, where they may.
#[derive(Clone, Copy)]
enum Stay {
    /// So that they arrive at the target's group in the tick in which the target is committed there.
    Meeting,
    /// Not at all.
    Least,
    /// As long as they may.
    Most,
    /// So that they arrive at the target's group one tick after the target is committed there.
    After,
}

impl Stay {
    /// The choice with a number below `STAYS`.
    fn numbered(number: usize) -> Stay {
        match number {
            0 => Stay::Meeting,
            1 => Stay::Least,
            2 => Stay::Most,
            _ => Stay::After,
        }
    }
}

/// The ends for all packets that a pattern doesn't fix: of one kind all take the same end.
#[derive(Clone, Copy)]
struct Ends {
    /// The stamps of the target that aren't for its group.
    target_stamps: End,
    /// Other messages, on their way to the target's group.
    messages: End,
    /// Other messages, on their way elsewhere.
    messages_elsewhere: End,
    /// Stamps of other messages for the target's group.
    stamps: End,
    /// Stamps of other messages for other groups.
    stamps_elsewhere: End,
}

impl Ends {
    /// The choice with a number below `CHOICES`.
    fn numbered(number: usize) -> Ends {
        Ends {
            target_stamps: End::numbered(number),
            messages: End::numbered(number / 2),
            messages_elsewhere: End::numbered(number / 4),
            stamps: End::numbered(number / 8),
            stamps_elsewhere: End::numbered(number / 16),
        }
    }
}

/// How many choices there are for the packets that a pattern doesn't fix: of ends, and of waits where
/// some message may wait.
fn choices(instance: &Instance) -> usize
    ensures some { 0 < result }
    ensures few { result ≤ CHOICES * STAYS }
{
    if some_may_wait(instance) {
        CHOICES * STAYS
    } else {
        CHOICES
    }
}

/// A schedule in which one rival is to hold the target back: it arrives at the target's group after a
/// delay that is chosen, and else it takes as long as it may. So does the target on its way to all
/// groups, and its stamps for its group. The other packets go by kinds (docs/PROTOCOL.md, "Seeking").
/// A rival that may wait does so until it meets the commit of the target at the target's group.
#[derive(Clone, Copy)]
pub struct Pattern {
    rival: usize,
    /// In ticks; where the range of the packet doesn't have it, the nearest delay that it has.
    coming: u16,
    ends: Ends,
    stay: Stay,
}

impl Pattern {
    /// How many patterns are tried for a rival that comes after those delays.
    pub fn count(instance: &Instance, comings: &Comings) -> usize {
        comings.count() * choices(instance)
    }

    /// The pattern of a rival with a number, where the rival comes after those delays: all choices
    /// for one delay stand before those for the next one.
    pub fn numbered(
        instance: &Instance,
        rival: usize,
        comings: &Comings,
        number: usize,
    ) -> Pattern {
        let choices = choices(instance);
        Pattern::chosen(rival, comings.delay(number / choices), number % choices)
    }

    /// The pattern of a rival that comes after that delay, in ticks, by the choice of a number.
    fn chosen(rival: usize, coming: u16, number: usize) -> Pattern {
        Pattern {
            rival,
            coming,
            ends: Ends::numbered(number),
            stay: Stay::numbered(number / CHOICES),
        }
    }

    /// The rival that is to hold the target back.
    pub fn rival(&self) -> usize {
        self.rival
    }

    /// A pattern of the same rival by chance, where the rival comes after those delays or others
    /// between them.
    pub fn varied(&self, instance: &Instance, comings: &Comings, chance: &mut Chance) -> Pattern {
        let coming = chance.delay(comings.range());
        Pattern::chosen(self.rival, coming, chance.below(choices(instance)))
    }

    /// Gives a schedule the delays of the pattern, and then the waits, which go by them.
    pub fn lay(&self, instance: &Instance, schedule: &mut Schedule)
        requires { IsAssignment instance.now schedule.old }
        ensures { IsAssignment instance.now schedule.new }
    {
        self.lay_delays(instance, schedule);
        self.lay_waits(instance, schedule, true);
        self.lay_waits(instance, schedule, false);
    }

    /// Gives a schedule the delays of the pattern, and the least waits.
    #[tactic(auto, using(crate::proofs::Schedules::length_within))]
    fn lay_delays(&self, instance: &Instance, schedule: &mut Schedule)
        requires { IsAssignment instance.now schedule.old }
        ensures { IsAssignment instance.now schedule.new }
    {
        let (scenario, table) = (instance.scenario(), instance.table());
        for i in 0..table.len() {
            let delay = self.delay(scenario, table.packet(i), table.range(i));
            schedule.set(i, delay);
        }
    }

    /// Gives a schedule of the pattern's delays the wait of the target, from whose commit the others are told, or
    /// those of the others.
    #[tactic(auto, using(crate::proofs::Schedules::length_within))]
    fn lay_waits(&self, instance: &Instance, schedule: &mut Schedule, of_target: bool)
        requires { IsAssignment instance.now schedule.old }
        ensures { IsAssignment instance.now schedule.new }
    {
        let table = instance.table();
        for i in 0..table.len() {
            if let Packet::Wait { message } = table.packet(i)
                && (message == instance.target_message()) == of_target
            {
                let wait = self.wait(instance, schedule, message, table.range(i));
                schedule.set(i, wait);
            }
        }
    }

    /// The wait of a message of the range, in ticks, in a schedule of the pattern's delays.
    fn wait(
        &self,
        instance: &Instance,
        schedule: &Schedule,
        message: usize,
        range: (u16, u16),
    ) -> u16
        requires { range.0 ≤ range.1 }
        ensures { IsWithin range result }
    {
        if message == instance.target_message() {
            return self.target_wait(instance, schedule, range);
        }
        let stay = if message == self.rival {
            Stay::Meeting
        } else {
            self.stay
        };
        let past = match stay {
            Stay::Least => return range.0,
            Stay::Most => return range.1,
            Stay::Meeting => 0,
            Stay::After => 1,
        };
        let wait = wait_past_commit(instance, schedule, message, past).unwrap_or(0);
        u16::try_from(wait)
            .unwrap_or(u16::MAX)
            .max(range.0)
            .min(range.1)
    }

    /// The wait of the target of the range, in ticks: the least by which the rival can come by its commit.
    fn target_wait(&self, instance: &Instance, schedule: &Schedule, range: (u16, u16)) -> u16
        requires { range.0 ≤ range.1 }
        ensures { IsWithin range result }
    {
        let wait = wait_to_be_met(instance, schedule, self.rival).unwrap_or(0);
        u16::try_from(wait)
            .unwrap_or(u16::MAX)
            .max(range.0)
            .min(range.1)
    }

    /// The delay of a packet of the range, in ticks.
    fn delay(&self, scenario: &Scenario, packet: Packet, range: (u16, u16)) -> u16
        requires { range.0 ≤ range.1 }
        ensures { IsWithin range result }
    {
        if self.is_arrival(scenario, packet) {
            self.coming.max(range.0).min(range.1)
        } else {
            self.end(scenario, packet).of(range)
        }
    }

    /// Whether the packet brings the rival to the target's group.
    fn is_arrival(&self, scenario: &Scenario, packet: Packet) -> bool {
        match packet {
            Packet::Multicast { message, to } => {
                message == self.rival && to == scenario.target_group()
            }
            Packet::Wait { .. } | Packet::Propose { .. } => false,
        }
    }

    /// The end that a packet takes, if it isn't the one that brings the rival.
    fn end(&self, scenario: &Scenario, packet: Packet) -> End {
        let (target, group) = (scenario.target_message(), scenario.target_group());
        match packet {
            Packet::Wait { .. } => End::Least,
            Packet::Multicast { message, to } => {
                if message == target || message == self.rival {
                    End::Most
                } else if to == group {
                    self.ends.messages
                } else {
                    self.ends.messages_elsewhere
                }
            }
            Packet::Propose { message, to, .. } => {
                if message == self.rival || (message == target && to == group) {
                    End::Most
                } else if message == target {
                    self.ends.target_stamps
                } else if to == group {
                    self.ends.stamps
                } else {
                    self.ends.stamps_elsewhere
                }
            }
        }
    }
}
