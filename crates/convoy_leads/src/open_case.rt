ghost use Rattle.std.specs.Prelude.{◌≡◌, ◌-◌, ◌<◌, false, length, is_none, IfOk, IfSome};
ghost use Rattle.std.specs.List.{list_all};
ghost use Rattle.convoy_draft.specs.declared.limits.TheConstants.{MOST_GROUPS, MOST_MULTICASTS};
ghost use Rattle.convoy_scenario.specs.Scenario.{message_at};
ghost use Rattle.convoy_intervals.specs.Bounds.{rivals};
ghost use Rattle.convoy_sure.specs.Windows.{tables_by};
ghost use Rattle.convoy_leads.specs.Closing.{is_behind, is_behind_after};
ghost use Rattle.convoy_leads.specs.Closing.{is_behind_late, is_behind_target};
ghost use Rattle.convoy_leads.specs.Openings.{IsOpenCase};

use super::facts::Facts;
use convoy_scenario::{MOST_GROUPS, MOST_MULTICASTS};
use convoy_starts::Scratch;
use convoy_sure::{Windows, destinations, target_group};
use std::alloc::AllocError;

/// A case that leads leave open: in windows that are cut for a late delivery of the target a rival is
/// not shown to be behind it.
#[derive(Drop)]
pub struct OpenCase {
    /// The rival, by its number.
    pub rival: usize,
    /// The group whose stamp may keep the rival's commit at the target's group back so long.
    pub rival_by: usize,
    /// The group whose stamp may keep the target back until the rival arrives.
    pub target_by: usize,
    /// The windows, cut where the rival arrives at the one group and the target at the other late
    /// enough for that.
    pub windows: Windows,
}

impl<'a> Facts<'a> {
    /// The windows cut where the target's stamp of group `f` keeps it back until message `n` arrives.
    /// None where it does not, or where `n` is behind there.
    fn open_by(
        &self,
        windows: &Windows,
        n: usize,
        f: usize,
        scratch: &mut Scratch,
    ) -> Result<Option<Windows>, AllocError>
        requires message { n < length self.now.scenario.now.multicasts }
        requires group { f < MOST_GROUPS }
        ensures none { IfOk result (λ found. is_none found
            ≡ is_behind_target self.now.scenario.now windows.now n f) }
        ensures case { IfOk result (λ found. IfSome found
            (λ cut. is_behind self.now.scenario.now (tables_by cut) n ≡ false)) }
    {
        let target = self.scenario.target_message();
        let group = target_group(self.scenario);
        let arrival = windows.least_arrival(n, group);
        let tick = arrival.saturating_sub(windows.greatest_proposal(target, f, group));
        if windows.greatest_arrival(target, f) < tick {
            return Ok(None);
        }
        let cut = windows.with_arrival(scratch.alloc, self.scenario, target, f, tick)?;
        if self.is_behind(&cut, n, scratch)? {
            return Ok(None);
        }
        Ok(Some(cut))
    }

    /// The first open case of message `n` in windows that are cut where its stamp of group `k` keeps
    /// its commit back: by way of the first group whose stamp may keep the target back until `n`
    /// arrives, and where `n` is not behind then.
    fn open_target(
        &self,
        windows: &Windows,
        n: usize,
        k: usize,
        scratch: &mut Scratch,
    ) -> Result<Option<OpenCase>, AllocError>
        requires message { n < length self.now.scenario.now.multicasts }
        requires group { k < MOST_GROUPS }
        ensures none { IfOk result (λ found. is_none found
            ≡ list_all (is_behind_target self.now.scenario.now windows.now n)
            (message_at self.now.scenario.now self.now.scenario.now.target_message).destinations) }
        ensures case { IfOk result (λ found. IfSome found (IsOpenCase self.now.scenario.now)) }
    {
        for f in destinations(self.scenario, self.scenario.target_message()) {
            if let Some(windows) = self.open_by(windows, n, *f, scratch)? {
                return Ok(Some(OpenCase {
                    rival: n,
                    rival_by: k,
                    target_by: *f,
                    windows,
                }));
            }
        }
        Ok(None)
    }

    /// The first open case of message `n` where it arrives at group `k` at that tick or later. None
    /// where it cannot, or is behind then: at once, or by way of each group whose stamp may keep the
    /// target back until `n` arrives.
    pub(crate) fn open_after(
        &self,
        windows: &Windows,
        n: usize,
        k: usize,
        tick: u32,
        scratch: &mut Scratch,
    ) -> Result<Option<OpenCase>, AllocError>
        requires message { n < length self.now.scenario.now.multicasts }
        requires known { n < MOST_MULTICASTS }
        requires group { k < MOST_GROUPS }
        ensures none { IfOk result (λ found. is_none found
            ≡ is_behind_after self.now.scenario.now windows.now n k tick) }
        ensures case { IfOk result (λ found. IfSome found (IsOpenCase self.now.scenario.now)) }
    {
        if windows.greatest_arrival(n, k) < tick {
            return Ok(None);
        }
        let late = windows.with_arrival(scratch.alloc, self.scenario, n, k, tick)?;
        if self.is_behind(&late, n, scratch)? {
            return Ok(None);
        }
        self.open_target(&late, n, k, scratch)
    }

    /// The first open case of message `n` by way of one of its groups whose stamp may keep its commit
    /// at the target's group back until that tick.
    fn open_way(
        &self,
        windows: &Windows,
        n: usize,
        tick: u32,
        scratch: &mut Scratch,
    ) -> Result<Option<OpenCase>, AllocError>
        requires message { n < length self.now.scenario.now.multicasts }
        ensures none { IfOk result (λ found. is_none found
            ≡ list_all (λ k. is_behind_after self.now.scenario.now windows.now n k
            (tick - (tables_by windows.now).greatest_proposal n k self.now.scenario.now.target_group))
            (message_at self.now.scenario.now n).destinations) }
        ensures case { IfOk result (λ found. IfSome found (IsOpenCase self.now.scenario.now)) }
    {
        let group = target_group(self.scenario);
        for k in destinations(self.scenario, n) {
            let from = tick.saturating_sub(windows.greatest_proposal(n, *k, group));
            if let Some(case) = self.open_after(windows, n, *k, from, scratch)? {
                return Ok(Some(case));
            }
        }
        Ok(None)
    }

    /// The first open case of message `n`, if it may be committed at the target's group at that tick or
    /// later.
    fn open_late(
        &self,
        windows: &Windows,
        n: usize,
        tick: u64,
        scratch: &mut Scratch,
    ) -> Result<Option<OpenCase>, AllocError>
        requires message { n < length self.now.scenario.now.multicasts }
        requires known { n < MOST_MULTICASTS }
        ensures none { IfOk result (λ found. is_none found
            ≡ is_behind_late self.now.scenario.now windows.now tick n) }
        ensures case { IfOk result (λ found. IfSome found (IsOpenCase self.now.scenario.now)) }
    {
        let last = windows.greatest_settling(n, target_group(self.scenario));
        if u64::from(last) < tick {
            return Ok(None);
        }
        self.open_way(windows, n, tick as u32, scratch)
    }

    /// The first case that windows leave open of the rivals that may be committed at the target's group
    /// at that tick or later: in the order of the rivals, of their groups, and of those of the target.
    /// None where each of them is behind.
    pub(crate) fn first_open(
        &self,
        windows: &Windows,
        tick: u64,
        scratch: &mut Scratch,
    ) -> Result<Option<OpenCase>, AllocError>
        ensures none { IfOk result (λ found. is_none found
            ≡ list_all (is_behind_late self.now.scenario.now windows.now tick)
            (rivals self.now.scenario.now (tables_by windows.now).times)) }
        ensures case { IfOk result (λ found. IfSome found (IsOpenCase self.now.scenario.now)) }
    {
        let rivals = self.rivals(windows);
        for n in rivals.numbers() {
            if let Some(case) = self.open_late(windows, *n, tick, scratch)? {
                return Ok(Some(case));
            }
        }
        Ok(None)
    }
}
