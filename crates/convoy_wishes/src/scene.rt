ghost use Rattle.std.specs.Prelude.{◌<◌, ◌≤◌, length};
ghost use Rattle.convoy_draft.specs.declared.limits.TheConstants.{MOST_GROUPS};

use convoy_intervals::DelayBox;
use convoy_leads::{Link, OpenCase};
use convoy_packets::Instance;
use convoy_scenario::{MOST_GROUPS, MOST_MULTICASTS, Time};
use convoy_sure::target_group;

/// What a wish run is told from: a box of a scenario, a case that leads leave open of it, and the chain of
/// links of that case.
#[derive(Drop)]
pub(crate) struct Scene<'a> {
    pub instance: &'a Instance,
    pub delay_box: &'a DelayBox,
    pub case: &'a OpenCase,
    pub links: &'a [Link],
    ghost rival: { case.now.rival < length instance.now.multicasts },
    ghost rival_by: { case.now.rival_by < MOST_GROUPS },
    ghost target_by: { case.now.target_by < MOST_GROUPS },
}

impl<'a> Scene<'a> {
    /// The target's group.
    pub(crate) fn group(&self) -> usize
        ensures { result < MOST_GROUPS }
    {
        target_group(self.instance.scenario())
    }

    /// The rival of the case.
    pub(crate) fn rival(&self) -> usize
        ensures message { result < length self.now.instance.now.multicasts }
        ensures known { result < MOST_MULTICASTS }
    {
        let _count = self.instance.message_count();
        self.case.rival
    }

    /// The target.
    pub(crate) fn target(&self) -> usize
        ensures message { result < length self.now.instance.now.multicasts }
        ensures known { result < MOST_MULTICASTS }
    {
        self.instance.target_message()
    }

    /// Whether the rival may arrive at the target's group before the target: then no chain is wanted.
    pub(crate) fn may_come_first(&self) -> bool {
        self.links.is_empty()
    }

    /// The least and the greatest delay of a packet in the box, in ticks; 0 and 0 of none.
    pub(crate) fn range(&self, place: Option<u16>) -> (u16, u16)
        ensures { result.0 ≤ result.1 }
    {
        match place {
            Some(place) if usize::from(place) < self.delay_box.len() => {
                self.delay_box.range(usize::from(place))
            }
            _ => (0, 0),
        }
    }

    /// The range of the delay of a message on its way to a group, in ticks.
    pub(crate) fn coming(&self, message: usize, group: usize) -> (u16, u16)
        ensures { result.0 ≤ result.1 }
    {
        self.range(self.instance.table().multicast_to(message, group))
    }

    /// The range of the delay of a proposal on its way from one group to another, in ticks.
    pub(crate) fn proposing(&self, message: usize, from: usize, to: usize) -> (u16, u16)
        ensures { result.0 ≤ result.1 }
    {
        self.range(self.instance.table().propose(message, from, to))
    }

    /// The first and the last tick at which a message is issued in the box.
    pub(crate) fn issue(&self, message: usize) -> (i64, i64)
        requires { message < length self.now.instance.now.multicasts }
    {
        let (shortest, longest) = self.range(self.instance.table().wait(message));
        let at = i64::from(self.instance.issue_tick(message));
        (at + i64::from(shortest), at + i64::from(longest))
    }

    /// How many ticks a commit has to come before an arrival so that it is before it: in whole ticks
    /// arrivals come first.
    pub(crate) fn commit_gap(&self) -> i64 {
        match self.instance.time() {
            Time::Ticks => 1,
            Time::Real => 0,
        }
    }

    /// How many ticks the arrival of one message has to come before that of another one so that it is before
    /// it: in whole ticks those of one tick come in the order of their numbers.
    pub(crate) fn arrival_gap(&self, first: usize, second: usize) -> i64 {
        match self.instance.time() {
            Time::Ticks if first > second => 1,
            _ => 0,
        }
    }
}
