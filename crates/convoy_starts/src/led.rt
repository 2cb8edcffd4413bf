ghost use Rattle.std.specs.Prelude.{◌≡◌, ◌<◌, ◌≤◌, ◌==◌, ◌||◌, length, All, IfOk};
ghost use Rattle.convoy_draft.specs.declared.limits.TheConstants.{MOST_GROUPS, MOST_MULTICASTS};
ghost use Rattle.convoy_stamps.specs.Reach.{pairs_of};
ghost use Rattle.convoy_sure.specs.Windows.{tables_by};
ghost use Rattle.convoy_starts.specs.Starts.{first_past, is_surely_less, last_arrival};
ghost use Rattle.convoy_starts.specs.Tests.{is_less_by, is_less_elsewhere};

use super::memo::Memo;
use super::scratch::Scratch;
use super::setting::Setting;
use super::start::Start;
use convoy_scenario::{MOST_GROUPS, MOST_MULTICASTS, Time};
use convoy_sim::Timestamp;
use convoy_stamps::Pair;
use convoy_sure::{LAST_ARRIVAL, destinations};
use std::alloc::AllocError;

impl<'a> Setting<'a> {
    /// The last tick at which the target can arrive at a group.
    pub(crate) fn last_arrival(&self) -> u32
        ensures value { result ≡ last_arrival self.now.scenario.now
            (tables_by self.now.windows.now).times }
        ensures fits { result ≤ LAST_ARRIVAL }
    {
        let target = self.scenario.target_message();
        let mut last: u32 = 0;
        for group in destinations(self.scenario, target) {
            last = last.max(self.windows.greatest_arrival(target, *group));
        }
        last
    }

    /// Whether the stamp of the target at a group is surely less than that of the message of which
    /// something is sure at the target's group.
    fn is_surely_less(&self, starts: &[Start], group: usize) -> bool
        requires { group < MOST_GROUPS }
        ensures { result ≡ is_surely_less self.now.scenario.now
            (tables_by self.now.windows.now).times self.now.sure.now starts.now group }
    {
        let target = self.target();
        let by = self.windows.greatest_arrival(target, group);
        let mosts = self.stamps_high(starts, target, group, by);
        let highest = Timestamp {
            time: u64::from(mosts[self.bar_of_target()]),
            group,
        };
        let lowest = Timestamp {
            time: u64::from(self.sure.time()),
            group: self.scenario.target_group(),
        };
        highest.is_less(lowest)
    }

    /// The target.
    fn target(&self) -> usize
        ensures value { result ≡ self.now.scenario.now.target_message }
        ensures known { result < MOST_MULTICASTS }
    {
        self.scenario.target_message()
    }

    /// Whether a group is the target's, or the stamp of the target there is surely less.
    pub(crate) fn is_no_danger(&self, starts: &[Start], group: usize) -> bool
        requires { group < MOST_GROUPS }
        ensures { result ≡ ((group == self.now.scenario.now.target_group)
            || is_surely_less self.now.scenario.now
            (tables_by self.now.windows.now).times self.now.sure.now starts.now group) }
    {
        group == self.scenario.target_group() || self.is_surely_less(starts, group)
    }

    /// Whether each stamp of the target at another group than its own is surely less.
    fn is_less_elsewhere(&self, starts: &[Start]) -> bool
        ensures { result ≡ is_less_by self.now.scenario.now
            (tables_by self.now.windows.now).times self.now.sure.now starts.now }
    {
        for group in destinations(self.scenario, self.scenario.target_message()) {
            if !self.is_no_danger(starts, *group) {
                return false;
            }
        }
        true
    }

    /// The same by all starts that there may be, which are written in the place of those that stood in the list.
    fn is_led_by(
        &self,
        pairs: &[Pair],
        starts: &mut Vec<Start>,
        memos: &mut Vec<Memo>,
        nexts: &mut Vec<u32>,
    ) -> Result<bool, AllocError>
        requires pairs { pairs.now ≡ pairs_of self.now.scenario.now }
        requires messages { All (λ p. p.message < length self.now.scenario.now.multicasts) pairs.now }
        requires groups { All (λ p. p.group < MOST_GROUPS) pairs.now }
        ensures { IfOk result (λ led. led ≡ is_less_elsewhere self.now.scenario.now
            (tables_by self.now.windows.now) self.now.sure.now self.now.barring) }
    {
        let end = first_past(self.time, self.last_arrival());
        self.write_starts(pairs, end, starts, memos, nexts)?;
        Ok(self.is_less_elsewhere(starts))
    }

    /// Whether each stamp of the target at another group than its own is surely less than that of the
    /// message of which something is sure, by all starts that there may be. The scratch keeps these.
    pub fn is_led(&self, pairs: &[Pair], scratch: &mut Scratch) -> Result<bool, AllocError>
        requires pairs { pairs.now ≡ pairs_of self.now.scenario.now }
        requires messages { All (λ p. p.message < length self.now.scenario.now.multicasts) pairs.now }
        requires groups { All (λ p. p.group < MOST_GROUPS) pairs.now }
        ensures { IfOk result (λ led. led ≡ is_less_elsewhere self.now.scenario.now
            (tables_by self.now.windows.now) self.now.sure.now self.now.barring) }
    {
        let Scratch {
            plain,
            barred,
            memos,
            nexts,
            ..
        } = scratch;
        if self.barring {
            self.is_led_by(pairs, barred, memos, nexts)
        } else {
            self.is_led_by(pairs, plain, memos, nexts)
        }
    }
}

/// The first tick at which a commit is past each arrival by that tick: in whole ticks that tick itself,
/// and in real time the next one.
pub(crate) fn first_past(time: Time, tick: u32) -> u32
    requires { tick ≤ LAST_ARRIVAL }
    ensures { result ≡ first_past time tick }
{
    match time {
        Time::Ticks => tick,
        Time::Real => tick + 1,
    }
}
