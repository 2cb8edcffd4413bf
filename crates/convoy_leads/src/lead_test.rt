ghost use Rattle.std.specs.Prelude.{◌≡◌, ◌+◌, ◌<◌, All, IfOk, IfSome, length};
ghost use Rattle.convoy_draft.specs.declared.limits.TheConstants.{MOST_GROUPS, MOST_MULTICASTS};
ghost use Rattle.convoy_scenario.specs.Scenario.{message_at};
ghost use Rattle.convoy_intervals.specs.Boxes.{IsBox};
ghost use Rattle.convoy_intervals.specs.Bounds.{rivals};
ghost use Rattle.convoy_sure.specs.Windows.{tables_by, windows_of};
ghost use Rattle.convoy_starts.specs.Links.{IsLink};
ghost use Rattle.convoy_leads.specs.Closing.{closes_over, is_behind_after};
ghost use Rattle.convoy_leads.specs.Openings.{IsOpenCase, IsOpening, IsShown, is_closed};

use super::facts::Facts;
use super::open_case::OpenCase;
use super::opening::Opening;
use super::shown::Shown;
use convoy_intervals::DelayBox;
use convoy_packets::Instance;
use convoy_scenario::{MOST_GROUPS, MOST_MULTICASTS};
use convoy_starts::{Link, Scratch};
use convoy_sure::{Messages, Windows, target_group};
use std::alloc::{AllocError, Global};
use std::marker::Model;

/// The test of windows by leads (docs/LEADS.md): all that it knows of them, for any latency.
#[derive(Drop)]
pub struct LeadTest<'a> {
    alloc: Global,
    facts: Facts<'a>,
    windows: Windows,
}

impl<'a> Model for LeadTest<'a> {
    ghost use Rattle.convoy_leads.specs.Closing.{Tested};

    ghost Value = { Tested };

    ghost view = { λ t. record { scenario = t.facts.scenario.now; windows = t.windows } };
}

impl<'a> LeadTest<'a> {
    /// The test of the windows of a box of the instance. The error is that memory ran out.
    pub fn of(
        alloc: Global,
        instance: &'a Instance,
        delay_box: &DelayBox,
    ) -> Result<LeadTest<'a>, AllocError>
        requires inside { IsBox instance.now delay_box.now }
        ensures { IfOk result (λ test. test ≡ record {
          scenario = instance.now;
          windows = windows_of instance.now delay_box.now;
        }) }
    {
        let windows = Windows::of(alloc, instance, delay_box)?;
        LeadTest::over(alloc, instance, windows)
    }

    /// The test of windows of the instance. The error is that memory ran out.
    pub fn over(
        alloc: Global,
        instance: &'a Instance,
        windows: Windows,
    ) -> Result<LeadTest<'a>, AllocError>
        ensures { IfOk result (λ test. test ≡ record {
          scenario = instance.now;
          windows = windows;
        }) }
    {
        let facts = Facts::of(alloc, instance.scenario())?;
        Ok(LeadTest {
            alloc,
            facts,
            windows,
        })
    }

    /// What leads show of the windows for a latency in ticks. What they were told from stays in the scratch. The
    /// error is that memory ran out.
    pub fn shows(&self, latency: u32, scratch: &mut Scratch) -> Result<Shown, AllocError>
        ensures closed { IfOk result (λ shown. is_closed shown
            ≡ closes_over self.now.scenario self.now.windows latency) }
        ensures case { IfOk result (IsShown self.now.scenario) }
    {
        self.facts.shown(&self.windows, latency, scratch)
    }

    /// The windows that are tested.
    pub fn windows(&self) -> &Windows
        ensures { result.now ≡ self.now.windows }
    {
        &self.windows
    }

    /// The rivals of the target: the messages that may arrive at its group by when it is committed there at the latest.
    pub fn rivals(&self) -> Messages
        ensures { result ≡ rivals self.now.scenario (tables_by self.now.windows).times }
    {
        self.facts.rivals(&self.windows)
    }

    /// Whether a message is surely behind the target where it arrives at a group at a tick or later, or cannot arrive so
    /// late. The error is that memory ran out.
    pub fn is_behind_after(
        &self,
        message: usize,
        group: usize,
        tick: u32,
        scratch: &mut Scratch,
    ) -> Result<bool, AllocError>
        requires message { message < length self.now.scenario.multicasts }
        requires few { message < MOST_MULTICASTS }
        requires group { group < MOST_GROUPS }
        ensures { IfOk result (λ behind. behind
            ≡ is_behind_after self.now.scenario self.now.windows message group tick) }
    {
        let open = self
            .facts
            .open_after(&self.windows, message, group, tick, scratch)?;
        Ok(open.is_none())
    }

    /// What keeps the windows open for a latency in ticks, for which leads have just shown that of them with this
    /// scratch: a case, and the chain of links of it. None where there is no case: leads close the windows, or the
    /// target alone may be late. The error is that memory ran out.
    pub fn opening(
        &self,
        shown: Shown,
        latency: u32,
        scratch: &mut Scratch,
    ) -> Result<Option<Opening>, AllocError>
        requires { IsShown self.now.scenario shown }
        ensures { IfOk result (λ found. IfSome found (IsOpening self.now.scenario)) }
    {
        let Some(case) = self.first_case(shown, latency, scratch)? else {
            return Ok(None);
        };
        let links = self.links(&case, false, scratch)?;
        Ok(Some(Opening { case, links }))
    }

    /// The chain of links of the case that was found open last with this scratch, where each message in turn is
    /// told to be committed nowhere before: no two links of it go to and fro between the same two stamps, and so
    /// there are more often runs that do all that it wants than of the chain of the case's
    /// [`opening`](LeadTest::opening). The error is that memory ran out.
    pub fn barred_links(&self, case: &OpenCase, scratch: &Scratch) -> Result<Vec<Link>, AllocError>
        requires { IsOpenCase self.now.scenario case.now }
        ensures { IfOk result (λ links. All (IsLink self.now.scenario) links.items) }
    {
        self.links(case, true, scratch)
    }

    /// The chain of links of that case, with no message barred but the target, or with each.
    fn links(
        &self,
        case: &OpenCase,
        barring: bool,
        scratch: &Scratch,
    ) -> Result<Vec<Link>, AllocError>
        requires { IsOpenCase self.now.scenario case.now }
        ensures { IfOk result (λ links. All (IsLink self.now.scenario) links.items) }
    {
        self.facts
            .links(self.alloc, &case.windows, case.rival, barring, scratch)
    }

    /// The first case that leads leave open, which is looked for where the target may be late.
    fn first_case(
        &self,
        shown: Shown,
        latency: u32,
        scratch: &mut Scratch,
    ) -> Result<Option<OpenCase>, AllocError>
        requires { IsShown self.now.scenario shown }
        ensures { IfOk result (λ found. IfSome found (IsOpenCase self.now.scenario)) }
    {
        match shown {
            Shown::Closed => Ok(None),
            Shown::TargetLate => {
                let tick = self.facts.late_tick(latency);
                self.facts.first_open(&self.windows, tick, scratch)
            }
            Shown::Open(case) => Ok(Some(case)),
        }
    }
}

impl<'a> Facts<'a> {
    /// The first tick at which the target is delivered later than by a latency in ticks.
    fn late_tick(&self, latency: u32) -> u64
        ensures { result ≡ (message_at self.now.scenario.now self.now.scenario.now.target_message).at
            + latency + 1 }
    {
        let issued = self.scenario.issue_tick(self.scenario.target_message());
        u64::from(issued) + u64::from(latency) + 1
    }

    /// What leads show of windows for a latency: that they are closed for it if the target and each
    /// rival that is committed at its group after that latency is behind it.
    fn shown(
        &self,
        windows: &Windows,
        latency: u32,
        scratch: &mut Scratch,
    ) -> Result<Shown, AllocError>
        ensures closed { IfOk result (λ shown. is_closed shown
            ≡ closes_over self.now.scenario.now windows.now latency) }
        ensures case { IfOk result (IsShown self.now.scenario.now) }
    {
        let tick = self.late_tick(latency);
        let last = windows.greatest_settling(self.target(), target_group(self.scenario));
        if u64::from(last) >= tick {
            return Ok(Shown::TargetLate);
        }
        match self.first_open(windows, tick, scratch)? {
            None => Ok(Shown::Closed),
            Some(case) => Ok(Shown::Open(case)),
        }
    }
}
