//! Windows that are cut by causes.

ghost use Rattle.std.specs.Prelude.{◌≡◌, ◌+◌, ◌<◌, ◌≤◌, length, min, IfOk};
ghost use Rattle.std.specs.List.{fold};
ghost use Rattle.convoy_scenario.specs.Scenario.{GoesTo, message_at};
ghost use Rattle.convoy_packets.specs.Table.{least_of};
ghost use Rattle.convoy_intervals.specs.Boxes.{root_of};
ghost use Rattle.convoy_sure.specs.Windows.{tables_by, with_arrival_by};
ghost use Rattle.convoy_causes.specs.Causes.{AreCauses, IsCause};
ghost use Rattle.convoy_causes.specs.CauseWindows.{
  earliest_event,
  earliest_issue,
  latest_commit,
  latest_event,
  latest_issue,
  least_way,
  with_causes,
  with_effect_after,
  with_event_before,
  with_event_since,
  with_event_until,
  with_issue_since,
  with_issue_until,
  with_latest_commits,
};

use super::cause::Cause;
use super::event::Event;
use convoy_packets::{Instance, Schedule};
use convoy_scenario::{AllocResult, GREATEST_UNTIL, MOST_GROUPS};
use convoy_sure::{LAST_ARRIVAL, LAST_SETTLING, Windows, destinations};
use std::alloc::Global;

/// An instance of which windows are cut, and its least delays.
#[derive(Drop)]
pub(crate) struct Cutting<'a> {
    alloc: Global,
    pub(crate) instance: &'a Instance,
    least: Schedule,
    ghost ways: { least ≡ least_of (root_of instance.now) },
}

impl<'a> Cutting<'a> {
    /// The cutting of windows of an instance. The error is that memory ran out.
    pub(crate) fn of(alloc: Global, instance: &'a Instance) -> AllocResult<Cutting<'a>>
        ensures { IfOk result (λ cutting. cutting.instance.now ≡ instance.now) }
    {
        let least = Schedule::least(alloc, instance.table())?;
        Ok(Cutting {
            alloc,
            instance,
            least,
        })
    }

    /// The windows cut by all causes: first by what each says of its event, from the last one to the first, and then
    /// by what each says of the message that follows. The error is that memory ran out.
    pub(crate) fn with_causes(&self, windows: Windows, causes: &[Cause]) -> AllocResult<Windows>
        requires { AreCauses self.now.instance.now causes.now }
        ensures { IfOk result
            (λ cut. cut ≡ with_causes self.now.instance.now causes.now windows) }
    {
        let mut backward = Vec::from_slice(self.alloc, causes)?;
        backward.reverse();
        let before = self.with_events_before(windows, &backward)?;
        let cut = self.with_effects_after(before, causes)?;
        Ok(cut)
    }

    /// The windows cut by what each cause in turn says of its event.
    fn with_events_before(&self, windows: Windows, causes: &[Cause]) -> AllocResult<Windows>
        requires { AreCauses self.now.instance.now causes.now }
        ensures { IfOk result (λ cut. cut
            ≡ fold (λ narrower cause. with_event_before self.now.instance.now cause narrower) windows causes.now) }
    {
        let mut cut = windows;
        for cause in causes {
            cut = self.with_event_before(cut, cause)?;
        }
        Ok(cut)
    }

    /// The windows cut by what each cause in turn says of the message that follows.
    fn with_effects_after(&self, windows: Windows, causes: &[Cause]) -> AllocResult<Windows>
        requires { AreCauses self.now.instance.now causes.now }
        ensures { IfOk result (λ cut. cut
            ≡ fold (λ narrower cause. with_effect_after self.now.instance.now cause narrower) windows causes.now) }
    {
        let mut cut = windows;
        for cause in causes {
            cut = self.with_effect_after(cut, cause)?;
        }
        Ok(cut)
    }

    /// The windows cut by what a cause says of its event: the message that follows is issued after it, within what is
    /// said.
    fn with_event_before(&self, windows: Windows, cause: &Cause) -> AllocResult<Windows>
        requires { IsCause self.now.instance.now cause.now }
        ensures { IfOk result
            (λ cut. cut ≡ with_event_before self.now.instance.now cause.now windows) }
    {
        let first = self
            .earliest_issue(&windows, cause.effect)
            .saturating_sub(cause.most);
        let last = self
            .latest_issue(&windows, cause.effect)
            .saturating_sub(cause.least);
        let (event, message, group) = (cause.event, cause.message, cause.group);
        let since = self.with_event_since(windows, event, message, group, first)?;
        let cut = self.with_event_until(since, event, message, group, last)?;
        Ok(cut)
    }

    /// The windows cut by what a cause says of the message that follows: it is issued so long after the event.
    pub(crate) fn with_effect_after(&self, windows: Windows, cause: &Cause) -> AllocResult<Windows>
        requires { IsCause self.now.instance.now cause.now }
        ensures { IfOk result
            (λ cut. cut ≡ with_effect_after self.now.instance.now cause.now windows) }
    {
        let (event, message, group) = (cause.event, cause.message, cause.group);
        let first = self.earliest_event(&windows, event, message, group);
        let last = self.latest_event(&windows, event, message, group);
        let from = u64::from(first) + u64::from(cause.least);
        let by = u64::from(last) + u64::from(cause.most);
        let since = self.with_issue_since(windows, cause.effect, from)?;
        let cut = self.with_issue_until(since, cause.effect, by)?;
        Ok(cut)
    }

    /// The windows cut: the event of a message at a group comes at that tick or later.
    #[tactic(auto, using(convoy_sim::proofs::Destinations::group_below))]
    fn with_event_since(
        &self,
        windows: Windows,
        event: Event,
        message: usize,
        group: usize,
        tick: u32,
    ) -> AllocResult<Windows>
        requires addressed { GoesTo self.now.instance.now message group }
        requires tick { tick ≤ LAST_ARRIVAL }
        ensures { IfOk result (λ cut. cut
            ≡ with_event_since self.now.instance.now event message group tick windows) }
    {
        let scenario = self.instance.scenario();
        match event {
            Event::Issue => self.with_issue_since(windows, message, u64::from(tick)),
            Event::Arrival => windows.with_arrival(self.alloc, scenario, message, group, tick),
            Event::Commit => windows.with_commit(self.alloc, message, group, tick),
            Event::Delivery => Ok(windows),
        }
    }

    /// The windows cut: the event of a message at a group comes by that tick.
    #[tactic(auto, using(convoy_sim::proofs::Destinations::group_below))]
    fn with_event_until(
        &self,
        windows: Windows,
        event: Event,
        message: usize,
        group: usize,
        tick: u32,
    ) -> AllocResult<Windows>
        requires addressed { GoesTo self.now.instance.now message group }
        requires tick { tick ≤ LAST_SETTLING }
        ensures { IfOk result (λ cut. cut
            ≡ with_event_until self.now.instance.now event message group tick windows) }
    {
        let scenario = self.instance.scenario();
        let cut = match event {
            Event::Issue => return self.with_issue_until(windows, message, u64::from(tick)),
            Event::Arrival => windows.with_arrival_by(self.alloc, scenario, message, group, tick)?,
            Event::Commit | Event::Delivery => {
                windows.with_commit_by(self.alloc, scenario, message, group, tick)?
            }
        };
        let narrower = self.with_latest_commits(cut, message)?;
        Ok(narrower)
    }

    /// The windows cut: a message is issued at that tick or later.
    pub(crate) fn with_issue_since(
        &self,
        windows: Windows,
        message: usize,
        tick: u64,
    ) -> AllocResult<Windows>
        requires { message < length self.now.instance.now.multicasts }
        ensures { IfOk result (λ cut. cut
            ≡ with_issue_since self.now.instance.now message tick windows) }
    {
        let from = tick.min(u64::from(GREATEST_UNTIL)) as u32;
        let scenario = self.instance.scenario();
        let mut cut = windows;
        for to in destinations(scenario, message) {
            let first = from + self.least_way(message, *to);
            cut = cut.with_arrival(self.alloc, scenario, message, *to, first)?;
        }
        Ok(cut)
    }

    /// The windows cut: a message is issued by that tick.
    pub(crate) fn with_issue_until(
        &self,
        windows: Windows,
        message: usize,
        tick: u64,
    ) -> AllocResult<Windows>
        requires { message < length self.now.instance.now.multicasts }
        ensures { IfOk result (λ cut. cut
            ≡ with_issue_until self.now.instance.now message tick windows) }
    {
        let cut = self.with_arrivals_by(windows, message, tick)?;
        let narrower = self.with_latest_commits(cut, message)?;
        Ok(narrower)
    }

    /// The windows cut: a message arrives at each group within the greatest delay from that tick.
    fn with_arrivals_by(&self, windows: Windows, message: usize, tick: u64) -> AllocResult<Windows>
        requires { message < length self.now.instance.now.multicasts }
        ensures { IfOk result (λ cut. cut ≡ fold
            (λ narrower g. with_arrival_by self.now.instance.now narrower message g (min GREATEST_UNTIL tick + (tables_by narrower).greatest_multicast message g))
            windows (message_at self.now.instance.now message).destinations) }
    {
        let by = tick.min(u64::from(GREATEST_UNTIL)) as u32;
        let scenario = self.instance.scenario();
        let mut cut = windows;
        for to in destinations(scenario, message) {
            let last = by + cut.greatest_multicast(message, *to);
            cut = cut.with_arrival_by(self.alloc, scenario, message, *to, last)?;
        }
        Ok(cut)
    }

    /// The windows cut: a message is committed at each group no later than its last stamp comes there.
    fn with_latest_commits(&self, windows: Windows, message: usize) -> AllocResult<Windows>
        requires { message < length self.now.instance.now.multicasts }
        ensures { IfOk result (λ cut. cut
            ≡ with_latest_commits self.now.instance.now message windows) }
    {
        let scenario = self.instance.scenario();
        let mut cut = windows;
        for to in destinations(scenario, message) {
            let last = self.latest_commit(&cut, message, *to);
            cut = cut.with_commit_by(self.alloc, scenario, message, *to, last)?;
        }
        Ok(cut)
    }

    /// The last tick at which a message is committed at a group, by the windows of its arrivals.
    fn latest_commit(&self, windows: &Windows, message: usize, group: usize) -> u32
        requires message { message < length self.now.instance.now.multicasts }
        requires group { group < MOST_GROUPS }
        ensures value { result
            ≡ latest_commit self.now.instance.now windows.now message group }
        ensures fits { result ≤ LAST_SETTLING }
    {
        let mut last = 0u32;
        for from in destinations(self.instance.scenario(), message) {
            let longest = windows.greatest_proposal(message, *from, group);
            last = last.max(windows.greatest_arrival(message, *from) + longest);
        }
        last
    }

    /// The first tick at which the event of a message at a group may come.
    #[tactic(auto, using(convoy_sim::proofs::Destinations::group_below))]
    fn earliest_event(&self, windows: &Windows, event: Event, message: usize, group: usize) -> u32
        requires { GoesTo self.now.instance.now message group }
        ensures { result ≡ earliest_event self.now.instance.now windows.now event message group }
    {
        let _scenario = self.instance.scenario();
        match event {
            Event::Issue => self.earliest_issue(windows, message),
            Event::Arrival => windows.least_arrival(message, group),
            Event::Commit | Event::Delivery => windows.least_settling(message, group),
        }
    }

    /// The last tick at which it may come.
    #[tactic(auto, using(convoy_sim::proofs::Destinations::group_below))]
    fn latest_event(&self, windows: &Windows, event: Event, message: usize, group: usize) -> u32
        requires { GoesTo self.now.instance.now message group }
        ensures { result ≡ latest_event self.now.instance.now windows.now event message group }
    {
        let _scenario = self.instance.scenario();
        match event {
            Event::Issue => self.latest_issue(windows, message),
            Event::Arrival => windows.greatest_arrival(message, group),
            Event::Commit => windows.greatest_settling(message, group),
            Event::Delivery => {
                self.latest_issue(windows, message) + 4 * u32::from(self.instance.delay())
            }
        }
    }

    /// The first tick at which a message may be issued.
    fn earliest_issue(&self, windows: &Windows, message: usize) -> u32
        requires { message < length self.now.instance.now.multicasts }
        ensures value { result ≡ earliest_issue self.now.instance.now windows.now message }
        ensures fits { result ≤ LAST_ARRIVAL }
    {
        let mut first = 0u32;
        for to in destinations(self.instance.scenario(), message) {
            let longest = windows.greatest_multicast(message, *to);
            first = first.max(windows.least_arrival(message, *to).saturating_sub(longest));
        }
        first
    }

    /// The last tick at which a message may be issued.
    fn latest_issue(&self, windows: &Windows, message: usize) -> u32
        requires { message < length self.now.instance.now.multicasts }
        ensures value { result ≡ latest_issue self.now.instance.now windows.now message }
        ensures fits { result ≤ GREATEST_UNTIL }
    {
        let mut last = GREATEST_UNTIL;
        for to in destinations(self.instance.scenario(), message) {
            let shortest = self.least_way(message, *to);
            last = last.min(
                windows
                    .greatest_arrival(message, *to)
                    .saturating_sub(shortest),
            );
        }
        last
    }

    /// The least delay of a message on its way to a group, in ticks.
    #[tactic(auto, unfolding(convoy_packets::specs::Assignment::delay_of))]
    fn least_way(&self, message: usize, group: usize) -> u32
        ensures value { result ≡ least_way self.now.instance.now message group }
        ensures fits { result ≤ 65535 }
    {
        let table = self.instance.table();
        u32::from(table.multicast_delay(&self.least, message, group))
    }
}
