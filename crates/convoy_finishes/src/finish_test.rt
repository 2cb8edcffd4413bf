ghost use Rattle.std.specs.Prelude.{◌≡◌, ◌+◌, ◌-◌, ◌<◌, ◌≤◌, length, max, IfOk, IsTrue};
ghost use Rattle.std.specs.List.{list_all};
ghost use Rattle.convoy_scenario.specs.Scenario.{message_at};
ghost use Rattle.convoy_intervals.specs.Boxes.{root_of};
ghost use Rattle.convoy_intervals.specs.Bounds.{rivals};
ghost use Rattle.convoy_sure.specs.Windows.{tables_by, windows_of};
ghost use Rattle.convoy_finishes.specs.FinishClosing.{
  closes_finishing_over,
  greatest_finish,
  is_behind_by_way,
  is_behind_finishing,
  longest_way,
  plain_finish_over,
};

use super::ways::{LONGEST_WAY, Ways};
use convoy_intervals::DelayBox;
use convoy_leads::{LeadTest, Scratch};
use convoy_packets::Instance;
use convoy_scenario::{AllocResult, MOST_GROUPS, MOST_MULTICASTS};
use convoy_sure::{LAST_ARRIVAL, Messages, destinations, target_group};
use std::alloc::Global;

/// No message is finished at a later tick, whatever the windows.
const LAST_FINISH: u32 = LAST_ARRIVAL + LONGEST_WAY;

/// The test of all windows of an instance, in which the target does not wait, where messages are finished some time
/// after their commit.
#[derive(Drop)]
pub(crate) struct FinishTest<'a> {
    instance: &'a Instance,
    ways: &'a Ways,
    leads: LeadTest<'a>,
    ghost same: { leads.scenario ≡ instance.now },
}

impl<'a> FinishTest<'a> {
    /// The test of an instance. The error is that memory ran out.
    pub(crate) fn of(
        alloc: Global,
        instance: &'a Instance,
        ways: &'a Ways,
    ) -> AllocResult<FinishTest<'a>>
        ensures instance { IfOk result (λ test. test.instance.now ≡ instance.now) }
        ensures windows { IfOk result
            (λ test. test.leads.windows ≡ windows_of instance.now (root_of instance.now)) }
        ensures ways { IfOk result (λ test. test.ways.now ≡ ways.now) }
    {
        let root = DelayBox::root(alloc, instance)?;
        let leads = LeadTest::of(alloc, instance, &root)?;
        Ok(FinishTest {
            instance,
            ways,
            leads,
        })
    }

    /// Whether the windows are closed for a latency in ticks. The error is that memory ran out.
    pub(crate) fn closes(&self, latency: u32, scratch: &mut Scratch) -> AllocResult<bool>
        ensures { IfOk result (λ closed. closed
            ≡ closes_finishing_over self.now.instance.now self.now.leads.windows self.now.ways.now latency) }
    {
        let target = self.instance.target_message();
        let tick = u64::from(self.instance.issue_tick(target)) + u64::from(latency) + 1;
        if u64::from(self.greatest_finish(target)) >= tick {
            return Ok(false);
        }
        self.are_all_behind(tick, scratch)
    }

    /// The least latency from one for which the windows are not closed to the plain bound for which they are found
    /// closed, by halves. The error is that memory ran out.
    pub(crate) fn least_after(&self, open: u32, scratch: &mut Scratch) -> AllocResult<u32>
        ensures { IfOk result (λ latency. IsTrue
            (closes_finishing_over self.now.instance.now self.now.leads.windows self.now.ways.now latency)) }
    {
        let mut low = open;
        let mut high = self.plain_bound();
        while low < high && high - low > 1 {
            let middle = low + (high - low) / 2;
            if self.closes(middle, scratch)? {
                high = middle;
            } else {
                low = middle;
            }
        }
        Ok(high)
    }

    /// The plain bound of the windows, in ticks.
    fn plain_bound(&self) -> u32
        ensures { result
            ≡ plain_finish_over self.now.instance.now self.now.leads.windows self.now.ways.now }
    {
        let target = self.instance.target_message();
        let rivals = self.rivals();
        let mut last = self.greatest_finish(target);
        for rival in rivals.numbers() {
            last = last.max(self.greatest_finish(*rival));
        }
        last.saturating_sub(self.instance.issue_tick(target))
    }

    /// The rivals of the target.
    fn rivals(&self) -> Messages
        ensures { result ≡ rivals self.now.instance.now (tables_by self.now.leads.windows).times }
    {
        self.leads.rivals()
    }

    /// Whether each rival that may be finished at that tick or later is behind.
    fn are_all_behind(&self, tick: u64, scratch: &mut Scratch) -> AllocResult<bool>
        ensures { IfOk result (λ behind. behind
            ≡ list_all (is_behind_finishing self.now.instance.now self.now.leads.windows self.now.ways.now tick)
            (rivals self.now.instance.now (tables_by self.now.leads.windows).times)) }
    {
        let rivals = self.rivals();
        for rival in rivals.numbers() {
            if !self.is_behind(*rival, tick, scratch)? {
                return Ok(false);
            }
        }
        Ok(true)
    }

    /// Whether a message cannot be finished at that tick or later, or is behind where it is.
    fn is_behind(&self, message: usize, tick: u64, scratch: &mut Scratch) -> AllocResult<bool>
        requires { message < length self.now.instance.now.multicasts }
        ensures { IfOk result (λ behind. behind
            ≡ is_behind_finishing self.now.instance.now self.now.leads.windows self.now.ways.now tick message) }
    {
        if u64::from(self.greatest_finish(message)) < tick {
            return Ok(true);
        }
        self.is_behind_by_all(message, tick as u32, scratch)
    }

    /// Whether a message is behind by way of each group that may keep its finish back until that tick.
    fn is_behind_by_all(
        &self,
        message: usize,
        tick: u32,
        scratch: &mut Scratch,
    ) -> AllocResult<bool>
        requires { message < length self.now.instance.now.multicasts }
        ensures { IfOk result (λ behind. behind
            ≡ list_all (is_behind_by_way self.now.instance.now self.now.leads.windows self.now.ways.now tick message)
            (message_at self.now.instance.now message).destinations) }
    {
        for group in destinations(self.instance.scenario(), message) {
            if !self.is_behind_by_way(message, *group, tick, scratch)? {
                return Ok(false);
            }
        }
        Ok(true)
    }

    /// Whether a message is behind where its way by a group keeps its finish back until that tick.
    fn is_behind_by_way(
        &self,
        message: usize,
        group: usize,
        tick: u32,
        scratch: &mut Scratch,
    ) -> AllocResult<bool>
        requires message { message < length self.now.instance.now.multicasts }
        requires few { message < MOST_MULTICASTS }
        requires group { group < MOST_GROUPS }
        ensures { IfOk result (λ behind. behind
            ≡ is_behind_by_way self.now.instance.now self.now.leads.windows self.now.ways.now tick message group) }
    {
        let from = tick.saturating_sub(self.longest_way(message, group));
        self.leads.is_behind_after(message, group, from, scratch)
    }

    /// The last tick at which a message may be finished at the target's group.
    fn greatest_finish(&self, message: usize) -> u32
        requires { message < length self.now.instance.now.multicasts }
        ensures value { result
            ≡ greatest_finish self.now.instance.now self.now.leads.windows self.now.ways.now message }
        ensures fits { result ≤ LAST_FINISH }
    {
        let mut last = 0u32;
        for group in destinations(self.instance.scenario(), message) {
            last = last.max(self.finish_by(message, *group));
        }
        last
    }

    /// The last tick at which a message may be finished at the target's group by way of a group.
    fn finish_by(&self, message: usize, group: usize) -> u32
        requires message { message < MOST_MULTICASTS }
        requires group { group < MOST_GROUPS }
        ensures value { result
            ≡ (tables_by self.now.leads.windows).times.greatest_arrival message group
            + longest_way self.now.instance.now self.now.leads.windows self.now.ways.now message group }
        ensures fits { result ≤ LAST_FINISH }
    {
        self.leads.windows().greatest_arrival(message, group) + self.longest_way(message, group)
    }

    /// How long it takes at most from when a message comes to a group until its answers by way of that, and the stamp
    /// of the group, are at the target's group.
    fn longest_way(&self, message: usize, group: usize) -> u32
        requires message { message < MOST_MULTICASTS }
        requires group { group < MOST_GROUPS }
        ensures value { result
            ≡ longest_way self.now.instance.now self.now.leads.windows self.now.ways.now message group }
        ensures fits { result ≤ LONGEST_WAY }
    {
        let to = target_group(self.instance.scenario());
        let stamp = self.leads.windows().greatest_proposal(message, group, to);
        self.ways.way(message, group).max(stamp)
    }
}
