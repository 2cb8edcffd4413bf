ghost use Rattle.std.specs.Prelude.{◌≡◌, ◌<◌, ◌≤◌, ◌||◌, nat_lt, nat_le, true, false, length, IfOk};
ghost use Rattle.convoy_draft.specs.declared.limits.TheConstants.{MOST_MULTICASTS};
ghost use Rattle.convoy_intervals.specs.Bounds.{rivals};
ghost use Rattle.convoy_sure.specs.SureLeads.{is_earlier, sure_of};
ghost use Rattle.convoy_sure.specs.Windows.{tables_by};
ghost use Rattle.convoy_starts.specs.Tests.{is_less_elsewhere};
ghost use Rattle.convoy_leads.specs.Leads.{is_led};
ghost use Rattle.convoy_leads.specs.Closing.{is_behind};

use super::facts::Facts;
use convoy_scenario::{AllocResult, MOST_MULTICASTS};
use convoy_starts::Scratch;
use convoy_sure::{Messages, Sure, Windows, is_earlier, sure_of, target_group};
use std::alloc::Global;

impl<'a> Facts<'a> {
    /// What is sure of a message at the target's group.
    pub(crate) fn sure_of(&self, alloc: Global, windows: &Windows, n: usize) -> AllocResult<Sure>
        requires { n < length self.now.scenario.now.multicasts }
        ensures { IfOk result (λ sure. sure ≡ sure_of self.now.scenario.now
            (tables_by windows.now).times n) }
    {
        sure_of(
            alloc,
            self.scenario,
            &self.audiences,
            &self.pairs,
            windows,
            n,
        )
    }

    /// Whether a message surely arrives at the target's group after the target.
    pub(crate) fn arrives_behind(&self, windows: &Windows, n: usize) -> bool
        requires { n < length self.now.scenario.now.multicasts }
        ensures { result ≡ is_earlier self.now.scenario.now.time
            ((tables_by windows.now).times.greatest_arrival self.now.scenario.now.target_message
            self.now.scenario.now.target_group) self.now.scenario.now.target_message
            ((tables_by windows.now).times.least_arrival n self.now.scenario.now.target_group) n }
    {
        let target = self.scenario.target_message();
        let group = target_group(self.scenario);
        is_earlier(
            self.scenario.time(),
            windows.greatest_arrival(target, group),
            target,
            windows.least_arrival(n, group),
            n,
        )
    }

    /// Whether each stamp of the target at another group than its own is surely less than that of the
    /// message of which this is sure, with no message barred or with each.
    fn is_less_elsewhere(
        &self,
        windows: &Windows,
        sure: &Sure,
        barring: bool,
        scratch: &mut Scratch,
    ) -> AllocResult<bool>
        ensures { IfOk result (λ less. less
            ≡ is_less_elsewhere self.now.scenario.now (tables_by windows.now) sure.now barring) }
    {
        let setting = self.setting(windows, sure, barring);
        setting.is_led(&self.pairs, scratch)
    }

    /// The same at first with no message barred, and then with each.
    fn is_less_either(
        &self,
        windows: &Windows,
        sure: &Sure,
        scratch: &mut Scratch,
    ) -> AllocResult<bool>
        ensures { IfOk result (λ less. less
            ≡ (is_less_elsewhere self.now.scenario.now (tables_by windows.now) sure.now false
            || is_less_elsewhere self.now.scenario.now (tables_by windows.now) sure.now true)) }
    {
        if self.is_less_elsewhere(windows, sure, false, scratch)? {
            return Ok(true);
        }
        self.is_less_elsewhere(windows, sure, true, scratch)
    }

    /// Whether a message that surely arrives at the target's group after the target has a stamp there
    /// that is surely greater than each stamp of the target elsewhere.
    fn is_led_behind(&self, windows: &Windows, n: usize, scratch: &mut Scratch) -> AllocResult<bool>
        requires { n < length self.now.scenario.now.multicasts }
        ensures { let tables = tables_by windows.now in
            let sure = sure_of self.now.scenario.now tables.times n in
            IfOk result (λ led. led
            ≡ (is_less_elsewhere self.now.scenario.now tables sure false
            || is_less_elsewhere self.now.scenario.now tables sure true)) }
    {
        let sure = self.sure_of(scratch.alloc, windows, n)?;
        self.is_less_either(windows, &sure, scratch)
    }

    /// The same of any message.
    fn is_led(&self, windows: &Windows, n: usize, scratch: &mut Scratch) -> AllocResult<bool>
        requires { n < length self.now.scenario.now.multicasts }
        ensures { IfOk result (λ led. led
            ≡ (is_led self.now.scenario.now (tables_by windows.now) false n
            || is_led self.now.scenario.now (tables_by windows.now) true n)) }
    {
        if !self.arrives_behind(windows, n) {
            return Ok(false);
        }
        self.is_led_behind(windows, n, scratch)
    }

    /// Whether a message surely arrives at the target's group after the target is committed there.
    fn arrives_late(&self, windows: &Windows, n: usize) -> bool
        requires { n < length self.now.scenario.now.multicasts }
        ensures { result ≡ nat_lt
            ((tables_by windows.now).times.greatest_settling self.now.scenario.now.target_message
            self.now.scenario.now.target_group)
            ((tables_by windows.now).times.least_arrival n self.now.scenario.now.target_group) }
    {
        let group = target_group(self.scenario);
        let committed = windows.greatest_settling(self.scenario.target_message(), group);
        committed < windows.least_arrival(n, group)
    }

    /// Whether a message surely arrives after the target is committed, or its stamp is surely greater
    /// than the target's.
    pub(crate) fn is_behind(
        &self,
        windows: &Windows,
        n: usize,
        scratch: &mut Scratch,
    ) -> AllocResult<bool>
        requires { n < length self.now.scenario.now.multicasts }
        ensures { IfOk result
            (λ behind. behind ≡ is_behind self.now.scenario.now (tables_by windows.now) n) }
    {
        if self.arrives_late(windows, n) {
            return Ok(true);
        }
        self.is_led(windows, n, scratch)
    }

    /// Whether a message may arrive at the target's group by that tick.
    fn may_arrive_by(&self, windows: &Windows, committed: u32, n: usize) -> bool
        requires { n < MOST_MULTICASTS }
        ensures { result ≡ nat_le
            ((tables_by windows.now).times.least_arrival n self.now.scenario.now.target_group) committed }
    {
        windows.least_arrival(n, target_group(self.scenario)) <= committed
    }

    /// The messages that may arrive at the target's group by when the target is committed there at the
    /// latest.
    pub(crate) fn rivals(&self, windows: &Windows) -> Messages
        ensures { result ≡ rivals self.now.scenario.now (tables_by windows.now).times }
    {
        let group = target_group(self.scenario);
        let committed = windows.greatest_settling(self.target(), group);
        let mut rivals = Messages::new();
        for n in self.audience(group) {
            if self.may_arrive_by(windows, committed, *n) {
                rivals.push(*n);
            }
        }
        rivals
    }
}
