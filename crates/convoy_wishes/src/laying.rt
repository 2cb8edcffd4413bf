//! Schedules of ticks that keep wishes.

ghost use Rattle.std.specs.Prelude.{◌≡◌, ◌<◌, ◌≤◌};
ghost use Rattle.convoy_draft.specs.declared.limits.TheConstants.{MOST_GROUPS, MOST_MULTICASTS};
ghost use Rattle.convoy_packets.specs.Assignment.{AreWithin, IsWithin};
ghost use Rattle.convoy_wishes.specs.Wishing.{IsScene};

use super::ends::End;
use super::event::Event;
use super::latest::EventTicks;
use super::scene::Scene;
use convoy_packets::{PLACES, Packet, Schedule, place};
use convoy_scenario::{MOST_GROUPS, MOST_MULTICASTS};

/// For each message at each group, by its place, whether a link of a chain wants its commit there soon.
pub(crate) type SoonCommits = [bool; PLACES];

impl<'a> Scene<'a> {
    /// Which commits the chain wants soon.
    pub(crate) fn soon_commits(&self) -> SoonCommits
        requires { IsScene self.now }
    {
        let mut soon = [false; PLACES];
        for link in self.links {
            if let Some(commit) = link.commit
                && commit.message < MOST_MULTICASTS
            {
                soon[place(commit.message, link.group)] = true;
            }
        }
        soon
    }

    /// Gives each packet the delay of the box by which messages are issued and arrive at those ticks, or the
    /// nearest: proposals for commits that are wanted soon the least, those of the rival and the target to the
    /// target's group the greatest, and others that end of their ranges.
    #[tactic(auto, using(crate::proofs::Lengths::length_within))]
    pub(crate) fn lay(
        &self,
        schedule: &mut Schedule,
        ticks: &EventTicks,
        end: End,
        soon: &SoonCommits,
    )
        requires within { AreWithin self.now.delay_box.now schedule.old.delays }
        ensures within { AreWithin self.now.delay_box.now schedule.new.delays }
        ensures order { schedule.new.order ≡ schedule.old.order }
    {
        let table = self.instance.table();
        for at in 0..self.delay_box.len().min(table.len()) {
            let range = self.delay_box.range(at);
            let delay = self.wished(table.packet(at), range, ticks, end, soon);
            schedule.set(at, within(range, delay));
        }
    }

    /// The delay that is wished of a packet, in ticks, in its range or not.
    fn wished(
        &self,
        packet: Packet,
        range: (u16, u16),
        ticks: &EventTicks,
        end: End,
        soon: &SoonCommits,
    ) -> i64 {
        match packet {
            Packet::Wait { message } if message < self.instance.message_count() => {
                let issue = ticks[Event::issue(message).place()];
                issue.saturating_sub(i64::from(self.instance.issue_tick(message)))
            }
            Packet::Multicast { message, to }
                if message < self.instance.message_count() && to < MOST_GROUPS => {
                let arrival = ticks[Event::arrival(message, to).place()];
                arrival.saturating_sub(ticks[Event::issue(message).place()])
            }
            Packet::Propose { message, to, .. }
                if message < self.instance.message_count() && to < MOST_GROUPS => {
                i64::from(self.proposal_end(message, to, end, soon).of(range))
            }
            _ => i64::from(end.of(range)),
        }
    }

    /// The end of the range of a proposal that is wished.
    fn proposal_end(&self, message: usize, to: usize, end: End, soon: &SoonCommits) -> End
        requires message { message < MOST_MULTICASTS }
        requires to { to < MOST_GROUPS }
    {
        if to == self.group() && (message == self.case.rival || message == self.target()) {
            End::Latest
        } else if soon[place(message, to)] {
            End::Earliest
        } else {
            end
        }
    }
}

/// The delay of a range, in ticks, that is nearest to a wished one.
fn within(range: (u16, u16), delay: i64) -> u16
    requires { range.0 ≤ range.1 }
    ensures { IsWithin range result }
{
    delay.clamp(i64::from(range.0), i64::from(range.1)) as u16
}
