//! The test of runs in which messages follow their causes.

ghost use Rattle.std.specs.Prelude.{◌≡◌, ◌⊎◌, ◌+◌, ◌-◌, ◌<◌, length, IfOk, IsTrue};
ghost use Rattle.std.specs.List.{list_all};
ghost use Rattle.convoy_scenario.specs.Scenario.{message_at};
ghost use Rattle.convoy_intervals.specs.Bounds.{rivals};
ghost use Rattle.convoy_sure.specs.Windows.{tables_by};
ghost use Rattle.convoy_leads.specs.Closing.{is_behind_after, is_behind_late};
ghost use Rattle.convoy_causes.specs.CauseWindows.{is_before, last_settling, tick_within};

use convoy_leads::{LeadTest, Scratch};
use convoy_packets::Instance;
use convoy_scenario::AllocResult;
use convoy_sure::{Messages, Windows, destinations, target_group};
use std::alloc::Global;

/// The test of windows of an instance that are cut by causes.
#[derive(Drop)]
pub(crate) struct CauseTest<'a> {
    instance: &'a Instance,
    leads: LeadTest<'a>,
    ghost same: { leads.scenario ≡ instance.now },
}

/// Whether windows of an instance say that the target is delivered within a number of ticks from the first at which a
/// message may be issued. The error is that memory ran out.
pub(crate) fn delivers_within(
    alloc: Global,
    instance: &Instance,
    windows: Windows,
    message: usize,
    within: u32,
) -> AllocResult<bool>
    requires { message < length instance.now.multicasts }
    ensures { IfOk result (λ delivered. delivered
        ≡ is_before instance.now windows (tick_within instance.now message within + 1)) }
{
    let test = CauseTest::over(alloc, instance, windows)?;
    let delivered = test.closes(message, within, &mut Scratch::new(alloc))?;
    Ok(delivered)
}

impl<'a> CauseTest<'a> {
    /// The test of windows of an instance. The error is that memory ran out.
    pub(crate) fn over(
        alloc: Global,
        instance: &'a Instance,
        windows: Windows,
    ) -> AllocResult<CauseTest<'a>>
        ensures instance { IfOk result (λ test. test.instance.now ≡ instance.now) }
        ensures windows { IfOk result (λ test. test.leads.windows ≡ windows) }
    {
        let leads = LeadTest::over(alloc, instance, windows)?;
        Ok(CauseTest { instance, leads })
    }

    /// Whether the windows say that the target is delivered within a number of ticks from the first at which a message
    /// may be issued. The error is that memory ran out.
    pub(crate) fn closes(
        &self,
        origin: usize,
        most: u32,
        scratch: &mut Scratch,
    ) -> AllocResult<bool>
        requires { origin < length self.now.instance.now.multicasts }
        ensures { IfOk result (λ closed. closed ≡ is_before self.now.instance.now self.now.leads.windows
            ((message_at self.now.instance.now origin).at + most + 1)) }
    {
        let tick = u64::from(self.instance.issue_tick(origin)) + u64::from(most) + 1;
        if u64::from(self.greatest_settling(self.instance.target_message())) >= tick {
            return Ok(false);
        }
        self.are_all_behind(tick, scratch)
    }

    /// A number of ticks within which the windows say that the target is delivered from the first tick at which a message
    /// may be issued: the one that is given, if they do, and else the least that is found by halves from there. The
    /// error is that memory ran out.
    pub(crate) fn least_time(
        &self,
        origin: usize,
        from: u32,
        scratch: &mut Scratch,
    ) -> AllocResult<u32>
        requires { origin < length self.now.instance.now.multicasts }
        ensures { IfOk result (λ time. IsTrue (is_before self.now.instance.now self.now.leads.windows
            ((message_at self.now.instance.now origin).at + time + 1))) }
    {
        if self.closes(origin, from, scratch)? {
            return Ok(from);
        }
        let most = self.plain_time(origin);
        let time = self.least_after(origin, from, most, scratch)?;
        Ok(time)
    }

    /// The least number from one for which the windows are not closed to another one for which they are found closed, by
    /// halves; that other one where there is none. The error is that memory ran out.
    fn least_after(
        &self,
        origin: usize,
        open: u32,
        most: u32,
        scratch: &mut Scratch,
    ) -> AllocResult<u32>
        requires { origin < length self.now.instance.now.multicasts }
        ensures { IfOk result (λ time. (time ≡ most)
            ⊎ IsTrue (is_before self.now.instance.now self.now.leads.windows
            ((message_at self.now.instance.now origin).at + time + 1))) }
    {
        let mut low = open;
        let mut high = most;
        while low < high && high - low > 1 {
            let middle = low + (high - low) / 2;
            if self.closes(origin, middle, scratch)? {
                high = middle;
            } else {
                low = middle;
            }
        }
        Ok(high)
    }

    /// From the first tick at which a message may be issued to the last commit of the target and its rivals.
    fn plain_time(&self, origin: usize) -> u32
        requires { origin < length self.now.instance.now.multicasts }
        ensures { result ≡ last_settling self.now.instance.now self.now.leads.windows
            - (message_at self.now.instance.now origin).at }
    {
        let rivals = self.rivals();
        let mut last = self.greatest_settling(self.instance.target_message());
        for rival in rivals.numbers() {
            last = last.max(self.greatest_settling(*rival));
        }
        last.saturating_sub(self.instance.issue_tick(origin))
    }

    /// The rivals of the target.
    fn rivals(&self) -> Messages
        ensures { result ≡ rivals self.now.instance.now (tables_by self.now.leads.windows).times }
    {
        self.leads.rivals()
    }

    /// Whether each rival that may be committed at that tick or later is behind.
    fn are_all_behind(&self, tick: u64, scratch: &mut Scratch) -> AllocResult<bool>
        ensures { IfOk result (λ behind. behind
            ≡ list_all (is_behind_late self.now.instance.now self.now.leads.windows tick)
            (rivals self.now.instance.now (tables_by self.now.leads.windows).times)) }
    {
        let rivals = self.rivals();
        for rival in rivals.numbers() {
            if !self.is_behind(*rival, tick, scratch)? {
                return Ok(false);
            }
        }
        Ok(true)
    }

    /// Whether a message cannot be committed at that tick or later, or is behind where it is.
    fn is_behind(&self, message: usize, tick: u64, scratch: &mut Scratch) -> AllocResult<bool>
        requires { message < length self.now.instance.now.multicasts }
        ensures { IfOk result (λ behind. behind
            ≡ is_behind_late self.now.instance.now self.now.leads.windows tick message) }
    {
        if u64::from(self.greatest_settling(message)) < tick {
            return Ok(true);
        }
        self.is_behind_by_all(message, tick as u32, scratch)
    }

    /// Whether a message is behind by way of each group that may keep its commit back until that tick.
    fn is_behind_by_all(
        &self,
        message: usize,
        tick: u32,
        scratch: &mut Scratch,
    ) -> AllocResult<bool>
        requires { message < length self.now.instance.now.multicasts }
        ensures { IfOk result (λ behind. behind
            ≡ list_all (λ k. is_behind_after self.now.instance.now self.now.leads.windows message k
            (tick - (tables_by self.now.leads.windows).greatest_proposal message k self.now.instance.now.target_group))
            (message_at self.now.instance.now message).destinations) }
    {
        let to = target_group(self.instance.scenario());
        for group in destinations(self.instance.scenario(), message) {
            let longest = self.leads.windows().greatest_proposal(message, *group, to);
            let from = tick.saturating_sub(longest);
            if !self.leads.is_behind_after(message, *group, from, scratch)? {
                return Ok(false);
            }
        }
        Ok(true)
    }

    /// The last tick at which a message may be committed at the target's group.
    fn greatest_settling(&self, message: usize) -> u32
        requires { message < length self.now.instance.now.multicasts }
        ensures { result
            ≡ (tables_by self.now.leads.windows).times.greatest_settling message self.now.instance.now.target_group }
    {
        let group = target_group(self.instance.scenario());
        self.leads.windows().greatest_settling(message, group)
    }
}
