//! Windows that are cut by when what messages follow is delivered.

ghost use Rattle.std.specs.Prelude.{◌≡◌, ◌+◌, ◌&&◌, length, zip, IfOk, IsTrue};
ghost use Rattle.std.specs.List.{fold};
ghost use Rattle.convoy_scenario.specs.Room.{HasRoom};
ghost use Rattle.convoy_scenario.specs.Targets.{with_target};
ghost use Rattle.convoy_causes.specs.Causes.{AreCauses, IsCause};
ghost use Rattle.convoy_causes.specs.CauseWindows.{
  all_windows,
  follows_delivery,
  is_before,
  is_delivered_within,
  is_delivery,
  narrowed,
  tick_within,
  with_causes,
  with_effect_within,
  with_issue_since,
  with_issue_until,
};

use super::cause::Cause;
use super::cause_test::{CauseTest, delivers_within};
use super::cutting::Cutting;
use super::event::Event;
use convoy_intervals::DelayBox;
use convoy_leads::Scratch;
use convoy_packets::Instance;
use convoy_scenario::AllocResult;
use convoy_sure::Windows;
use std::alloc::Global;

/// Windows of an instance that are cut by causes and by when what messages follow is delivered.
#[derive(Drop)]
pub(crate) struct Narrowed {
    pub(crate) windows: Windows,
    /// For each cause, by its place: within how many ticks from the first at which the message that it follows may be
    /// issued that one is delivered at the group of the event; 0 where that is not asked.
    pub(crate) within: Vec<u32>,
}

/// The windows of all runs of an instance in which messages follow their causes: cut by these, then by each in turn with
/// its number of ticks, and by all of them again. The error is that memory ran out.
pub(crate) fn narrow_windows(
    alloc: Global,
    instance: &Instance,
    causes: &[Cause],
    within: &[u32],
) -> AllocResult<Windows>
    requires { AreCauses instance.now causes.now }
    ensures { IfOk result (λ cut. cut ≡ narrowed instance.now causes.now within.now) }
{
    let narrowing = Narrowing::of(alloc, instance, causes)?;
    let first = narrowing.first_windows()?;
    let narrower = narrowing.with_effects(first, within)?;
    let cut = narrowing.with_causes(narrower)?;
    Ok(cut)
}

/// The same with numbers of ticks that are found: for each cause in turn the least by halves for which windows that are
/// cut so far say that what it follows is delivered. The error is that memory ran out.
pub(crate) fn least_narrowed(
    alloc: Global,
    instance: &Instance,
    causes: &[Cause],
) -> AllocResult<Narrowed>
    requires { AreCauses instance.now causes.now }
    ensures windows { IfOk result
        (λ found. found.windows ≡ narrowed instance.now causes.now found.within.items) }
    ensures each { IfOk result (λ found. length found.within.items ≡ length causes.now) }
{
    let narrowing = Narrowing::of(alloc, instance, causes)?;
    let first = narrowing.first_windows()?;
    let found = narrowing.with_least_effects(first)?;
    let windows = narrowing.with_causes(found.windows)?;
    let within = found.within;
    Ok(Narrowed { windows, within })
}

/// An instance with causes, of which windows are cut.
#[derive(Drop)]
struct Narrowing<'a> {
    alloc: Global,
    causes: &'a [Cause],
    cutting: Cutting<'a>,
    ghost are: { AreCauses cutting.instance.now causes.now },
}

impl<'a> Narrowing<'a> {
    /// An instance with its causes. The error is that memory ran out.
    fn of(alloc: Global, instance: &'a Instance, causes: &'a [Cause]) -> AllocResult<Narrowing<'a>>
        requires { AreCauses instance.now causes.now }
        ensures instance { IfOk result (λ narrowing. narrowing.cutting.instance.now ≡ instance.now) }
        ensures causes { IfOk result (λ narrowing. narrowing.causes.now ≡ causes.now) }
    {
        let cutting = Cutting::of(alloc, instance)?;
        Ok(Narrowing {
            alloc,
            causes,
            cutting,
        })
    }

    /// The windows of all assignments, cut by all causes.
    fn first_windows(&self) -> AllocResult<Windows>
        ensures { IfOk result (λ cut. cut ≡ with_causes self.now.cutting.instance.now self.now.causes.now
            (all_windows self.now.cutting.instance.now)) }
    {
        let instance = self.cutting.instance;
        let root = DelayBox::root(self.alloc, instance)?;
        let windows = Windows::of(self.alloc, instance, &root)?;
        let cut = self.with_causes(windows)?;
        Ok(cut)
    }

    /// Windows cut by all causes.
    fn with_causes(&self, windows: Windows) -> AllocResult<Windows>
        ensures { IfOk result
            (λ cut. cut ≡ with_causes self.now.cutting.instance.now self.now.causes.now windows) }
    {
        self.cutting.with_causes(windows, self.causes)
    }

    /// Windows cut by each cause in turn with its number of ticks, as far as there are numbers.
    fn with_effects(&self, windows: Windows, within: &[u32]) -> AllocResult<Windows>
        ensures { IfOk result (λ cut. cut ≡ fold
            (λ narrower step. with_effect_within self.now.cutting.instance.now self.now.causes.now narrower step.0 step.1)
            windows (zip self.now.causes.now within.now)) }
    {
        let mut cut = windows;
        for place in 0..self.causes.len().min(within.len()) {
            cut = self.with_effect(cut, &self.causes[place], within[place])?;
        }
        Ok(cut)
    }

    /// Windows cut by each cause in turn with the number of ticks that is found for it.
    fn with_least_effects(&self, windows: Windows) -> AllocResult<Narrowed>
        ensures windows { IfOk result (λ found. found.windows ≡ fold
            (λ narrower step. with_effect_within self.now.cutting.instance.now self.now.causes.now narrower step.0 step.1)
            windows (zip self.now.causes.now found.within.items)) }
        ensures each { IfOk result (λ found. length found.within.items ≡ length self.now.causes.now) }
    {
        let mut cut = windows;
        let mut within = Vec::new(self.alloc);
        for place in 0..self.causes.len() {
            let cause = &self.causes[place];
            let ticks = self.least_within(&cut, cause)?;
            cut = self.with_effect(cut, cause, ticks)?;
            within.push(ticks)?;
        }
        Ok(Narrowed {
            windows: cut,
            within,
        })
    }

    /// Windows cut by when the message that follows is issued at the latest: after a delivery that comes within so many
    /// ticks, by that, and else by what windows say of the event.
    fn with_effect(&self, windows: Windows, cause: &Cause, within: u32) -> AllocResult<Windows>
        requires { IsCause self.now.cutting.instance.now cause.now }
        ensures { IfOk result (λ cut. cut ≡ with_effect_within
            self.now.cutting.instance.now self.now.causes.now windows cause.now within) }
    {
        if self.is_shown(&windows, cause, within)? {
            return self.with_delivery(windows, cause, within);
        }
        self.cutting.with_effect_after(windows, cause)
    }

    /// Whether a message follows a delivery that can be asked about, and windows say that this comes within so many ticks.
    fn is_shown(&self, windows: &Windows, cause: &Cause, within: u32) -> AllocResult<bool>
        requires { IsCause self.now.cutting.instance.now cause.now }
        ensures { IfOk result (λ shown. shown ≡ (follows_delivery self.now.cutting.instance.now cause.now
            && is_delivered_within self.now.cutting.instance.now self.now.causes.now cause.now within windows.now)) }
    {
        if !self.follows_delivery(cause) {
            return Ok(false);
        }
        let goal = self.goal(cause)?;
        self.is_delivered_within(&goal, windows, cause, within)
    }

    /// Windows cut: a message is issued so long after the last of so many ticks within which what it follows is delivered.
    fn with_delivery(&self, windows: Windows, cause: &Cause, within: u32) -> AllocResult<Windows>
        requires { IsCause self.now.cutting.instance.now cause.now }
        ensures { IfOk result (λ cut. cut ≡ with_issue_until self.now.cutting.instance.now cause.now.effect
            (tick_within self.now.cutting.instance.now cause.now.message within + cause.now.most) windows) }
    {
        let first = self.cutting.instance.issue_tick(cause.message);
        let last = u64::from(first) + u64::from(within);
        let by = last + u64::from(cause.most);
        self.cutting.with_issue_until(windows, cause.effect, by)
    }

    /// Whether a message follows a delivery that can be asked about: the message that it follows has room as a target.
    fn follows_delivery(&self, cause: &Cause) -> bool
        ensures value { result ≡ follows_delivery self.now.cutting.instance.now cause.now }
        ensures room { IsTrue result
            → HasRoom (with_target self.now.cutting.instance.now cause.now.message cause.now.group) }
    {
        let scenario = self.cutting.instance.scenario();
        is_delivery(cause.event) && scenario.may_be_target(cause.message)
    }

    /// The instance of which the delivery is asked that a message follows.
    fn goal(&self, cause: &Cause) -> AllocResult<Instance>
        requires cause { IsCause self.now.cutting.instance.now cause.now }
        requires room { HasRoom (with_target self.now.cutting.instance.now cause.now.message cause.now.group) }
        ensures { IfOk result (λ goal. goal
            ≡ with_target self.now.cutting.instance.now cause.now.message cause.now.group) }
    {
        let scenario = self.cutting.instance.scenario();
        let other = scenario.with_target(cause.message, cause.group)?;
        let goal = Instance::of(self.alloc, other)?;
        Ok(goal)
    }

    /// Whether windows say that the target of that instance is delivered within so many ticks, as they are, or cut by what is
    /// so if it is not.
    fn is_delivered_within(
        &self,
        goal: &Instance,
        windows: &Windows,
        cause: &Cause,
        within: u32,
    ) -> AllocResult<bool>
        requires cause { IsCause self.now.cutting.instance.now cause.now }
        requires goal { goal.now
            ≡ with_target self.now.cutting.instance.now cause.now.message cause.now.group }
        ensures { IfOk result (λ delivered. delivered ≡ is_delivered_within
            self.now.cutting.instance.now self.now.causes.now cause.now within windows.now) }
    {
        let same = copy_of(self.alloc, windows)?;
        if delivers_within(self.alloc, goal, same, cause.message, within)? {
            return Ok(true);
        }
        self.is_late_shown(goal, windows, cause, within)
    }

    /// Whether they say so cut by what is so if it is not: what follows that delivery is issued after the next tick, and by
    /// all causes.
    fn is_late_shown(
        &self,
        goal: &Instance,
        windows: &Windows,
        cause: &Cause,
        within: u32,
    ) -> AllocResult<bool>
        requires cause { IsCause self.now.cutting.instance.now cause.now }
        requires goal { goal.now
            ≡ with_target self.now.cutting.instance.now cause.now.message cause.now.group }
        ensures { IfOk result (λ shown. shown ≡ is_before
            (with_target self.now.cutting.instance.now cause.now.message cause.now.group)
            (with_causes self.now.cutting.instance.now self.now.causes.now
            (with_issue_since self.now.cutting.instance.now cause.now.effect
            (tick_within self.now.cutting.instance.now cause.now.message within + 1 + cause.now.least) windows.now))
            (tick_within self.now.cutting.instance.now cause.now.message within + 1)) }
    {
        let first = self.cutting.instance.issue_tick(cause.message);
        let next = u64::from(first) + u64::from(within) + 1;
        let from = next + u64::from(cause.least);
        let same = copy_of(self.alloc, windows)?;
        let late = self.cutting.with_issue_since(same, cause.effect, from)?;
        let cut = self.with_causes(late)?;
        let shown = delivers_within(self.alloc, goal, cut, cause.message, within)?;
        Ok(shown)
    }

    /// The least number of ticks, found by halves, within which windows say that what a message follows is delivered: first
    /// as they are, from the last commit, and then from none, cut by what is so if it is not. 0 where that cannot be
    /// asked.
    fn least_within(&self, windows: &Windows, cause: &Cause) -> AllocResult<u32>
        requires { IsCause self.now.cutting.instance.now cause.now }
        ensures { IfOk result (λ ticks. IsTrue (follows_delivery self.now.cutting.instance.now cause.now)
            → IsTrue (is_delivered_within self.now.cutting.instance.now self.now.causes.now cause.now ticks windows.now)) }
    {
        if !self.follows_delivery(cause) {
            return Ok(0);
        }
        let goal = self.goal(cause)?;
        let most = self.plain_within(&goal, windows, cause)?;
        let ticks = self.least_late(&goal, windows, cause, most)?;
        Ok(ticks)
    }

    /// A number of ticks within which windows as they are say that the target of that instance is delivered: up to its last
    /// commit, if they say so, and else the least that is found by halves from there.
    #[tactic(auto, using(convoy_sim::proofs::Destinations::group_below))]
    fn plain_within(&self, goal: &Instance, windows: &Windows, cause: &Cause) -> AllocResult<u32>
        requires cause { IsCause self.now.cutting.instance.now cause.now }
        requires goal { goal.now
            ≡ with_target self.now.cutting.instance.now cause.now.message cause.now.group }
        ensures { IfOk result (λ ticks. IsTrue (is_delivered_within
            self.now.cutting.instance.now self.now.causes.now cause.now ticks windows.now)) }
    {
        let _scenario = self.cutting.instance.scenario();
        let first = self.cutting.instance.issue_tick(cause.message);
        let last = windows.greatest_settling(cause.message, cause.group);
        let same = copy_of(self.alloc, windows)?;
        let test = CauseTest::over(self.alloc, goal, same)?;
        let from = last.saturating_sub(first);
        let ticks = test.least_time(cause.message, from, &mut Scratch::new(self.alloc))?;
        Ok(ticks)
    }

    /// The least number of ticks up to one by which it is delivered, found by halves from none, for which windows say so cut
    /// by what is so if it is not; that one where there is none.
    fn least_late(
        &self,
        goal: &Instance,
        windows: &Windows,
        cause: &Cause,
        most: u32,
    ) -> AllocResult<u32>
        requires cause { IsCause self.now.cutting.instance.now cause.now }
        requires goal { goal.now
            ≡ with_target self.now.cutting.instance.now cause.now.message cause.now.group }
        requires most { IsTrue (is_delivered_within
            self.now.cutting.instance.now self.now.causes.now cause.now most windows.now) }
        ensures { IfOk result (λ ticks. IsTrue (is_delivered_within
            self.now.cutting.instance.now self.now.causes.now cause.now ticks windows.now)) }
    {
        let mut low = 0u32;
        let mut high = most;
        while low < high {
            let middle = low + (high - low) / 2;
            if self.is_late_shown(goal, windows, cause, middle)? {
                high = middle;
            } else {
                low = middle + 1;
            }
        }
        Ok(high)
    }
}

/// Whether an event is a delivery.
fn is_delivery(event: Event) -> bool
    ensures { result ≡ is_delivery event }
{
    matches!(event, Event::Delivery)
}

/// The same windows, in memory of their own.
fn copy_of(alloc: Global, windows: &Windows) -> AllocResult<Windows>
    ensures { IfOk result (λ same. same ≡ windows.now) }
{
    let same = windows.with_commit(alloc, 0, 0, 0)?;
    Ok(same)
}
