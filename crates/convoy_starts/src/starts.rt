ghost use Rattle.std.specs.Prelude.{◌≡◌, ℕ, ◌*◌, ◌<◌, ◌≤◌, false, [], length, slice_index, slice_index_or, All, OnOk};
ghost use Rattle.std.specs.List.{fold};
ghost use Rattle.convoy_draft.specs.declared.limits.TheConstants.{MOST_GROUPS, MOST_MULTICASTS};
ghost use Rattle.convoy_stamps.specs.declared.pair.Pair.{Pair};
ghost use Rattle.convoy_stamps.specs.Reach.{pairs_of};
ghost use Rattle.convoy_sure.specs.Windows.{tables_by};
ghost use Rattle.convoy_starts.specs.Starts.{may_commit, start_of, with_start, add_start, starts_before};
ghost use Rattle.convoy_starts.specs.Mosts.{AreCurrent};
ghost use Rattle.convoy_starts.specs.Changes.{AreCovered};

use super::changes::least;
use super::memo::Memo;
use super::setting::Setting;
use super::start::{Start, is_covered};
use arrayvec::ArrayVec;
use convoy_scenario::{MOST_GROUPS, MOST_MULTICASTS};
use convoy_stamps::Pair;
use std::alloc::AllocError;

/// Adds a start, if none covers it.
fn with_start(starts: &mut Vec<Start>, start: Start) -> Result<(), AllocError>
    ensures { OnOk result (starts.new.items ≡ with_start starts.old.items start) }
{
    if is_covered(starts, &start) {
        return Ok(());
    }
    starts.push(start)?;
    Ok(())
}

impl<'a> Setting<'a> {
    /// Whether the message of a pair, which is not the target, may be committed at the pair's group at
    /// that tick.
    pub(crate) fn may_commit(&self, tick: u32, pair: Pair) -> bool
        requires message { pair.message < length self.now.scenario.now.multicasts }
        requires group { pair.group < MOST_GROUPS }
        ensures { result ≡ may_commit self.now.scenario.now
            (tables_by self.now.windows.now).times tick pair }
    {
        let target = self.scenario.target_message();
        pair.message != target
            && self.windows.least_settling(pair.message, pair.group) <= tick
            && tick <= self.windows.greatest_settling(pair.message, pair.group)
    }

    /// The first tick from the first one on at which the message of a pair may be committed at the
    /// pair's group, or else the other one, if that comes before.
    pub(crate) fn next_commit_of(&self, pair: Pair, from: u32, end: u32) -> u32
        requires message { pair.message < length self.now.scenario.now.multicasts }
        requires group { pair.group < MOST_GROUPS }
        requires ordered { from ≤ end }
        ensures within { (from ≤ result) × (result ≤ end) }
        ensures idle { (tick : ℕ) → from ≤ tick → tick < result → may_commit self.now.scenario.now
            (tables_by self.now.windows.now).times tick pair ≡ false }
    {
        let target = self.scenario.target_message();
        let last = self.windows.greatest_settling(pair.message, pair.group);
        if pair.message == target || last < from {
            return end;
        }
        let first = self.windows.least_settling(pair.message, pair.group);
        first.max(from).min(end)
    }

    /// The start of a pair's commit at that tick, with or without its values for messages that are
    /// committed nowhere before.
    fn start_of(&self, memos: &mut [Memo], starts: &[Start], tick: u32, pair: Pair) -> Start
        requires message { pair.message < length self.now.scenario.now.multicasts }
        requires group { pair.group < MOST_GROUPS }
        requires tick { tick < u32.MAX }
        requires places { length memos.old ≡ length self.now.scenario.now.multicasts * MOST_GROUPS }
        requires current { AreCurrent self.now.scenario.now (tables_by self.now.windows.now).times
            self.now.sure.now self.now.bars.now starts.now tick memos.old }
        ensures current { AreCurrent self.now.scenario.now (tables_by self.now.windows.now).times
            self.now.sure.now self.now.bars.now starts.now tick memos.new }
        ensures value { result ≡ start_of self.now.scenario.now (tables_by self.now.windows.now)
            self.now.sure.now self.now.barring starts.now tick pair }
    {
        let Pair { message, group } = pair;
        let mosts = self.raises_high(memos, starts, tick, message, group);
        let base = mosts[self.bar_of_target()];
        let barred = if self.barring { mosts } else { ArrayVec::new() };
        Start::new(tick, message, group, base, barred)
    }

    /// Adds the start of a pair's commit at a tick, if it may be committed then, and no start covers
    /// it.
    fn add_start(
        &self,
        tick: u32,
        starts: &mut Vec<Start>,
        memos: &mut [Memo],
        pair: Pair,
    ) -> Result<(), AllocError>
        requires message { pair.message < length self.now.scenario.now.multicasts }
        requires group { pair.group < MOST_GROUPS }
        requires tick { tick < u32.MAX }
        requires places { length memos.old ≡ length self.now.scenario.now.multicasts * MOST_GROUPS }
        requires current { AreCurrent self.now.scenario.now (tables_by self.now.windows.now).times
            self.now.sure.now self.now.bars.now starts.old.items tick memos.old }
        ensures current { OnOk result (AreCurrent self.now.scenario.now
            (tables_by self.now.windows.now).times
            self.now.sure.now self.now.bars.now starts.new.items tick memos.new) }
        ensures value { OnOk result (starts.new.items ≡ add_start self.now.scenario.now
            (tables_by self.now.windows.now) self.now.sure.now self.now.barring tick
            starts.old.items pair) }
    {
        if !self.may_commit(tick, pair) {
            return Ok(());
        }
        let start = self.start_of(memos, starts, tick, pair);
        with_start(starts, start)?;
        Ok(())
    }

    /// Adds the start of a pair's commit at a tick, if that is the pair's next, with what follows from
    /// it for the next ticks.
    fn visit(
        &self,
        tick: u32,
        starts: &mut Vec<Start>,
        memos: &mut [Memo],
        nexts: &mut [u32],
        pairs: &[Pair],
        k: usize,
    ) -> Result<(), AllocError>
        requires messages { All (λ p. p.message < length self.now.scenario.now.multicasts) pairs.now }
        requires groups { All (λ p. p.group < MOST_GROUPS) pairs.now }
        requires few { length self.now.scenario.now.multicasts ≤ MOST_MULTICASTS }
        requires tick { tick < u32.MAX }
        requires within { k < length pairs.now }
        requires long { length nexts.old ≡ length pairs.now }
        requires places { length memos.old ≡ length self.now.scenario.now.multicasts * MOST_GROUPS }
        requires current { AreCurrent self.now.scenario.now (tables_by self.now.windows.now).times
            self.now.sure.now self.now.bars.now starts.old.items tick memos.old }
        requires covered { AreCovered self.now.scenario.now (tables_by self.now.windows.now)
            self.now.sure.now self.now.barring starts.old.items tick nexts.old pairs.now }
        ensures current { OnOk result (AreCurrent self.now.scenario.now
            (tables_by self.now.windows.now).times
            self.now.sure.now self.now.bars.now starts.new.items tick memos.new) }
        ensures covered { OnOk result (AreCovered self.now.scenario.now
            (tables_by self.now.windows.now)
            self.now.sure.now self.now.barring starts.new.items tick nexts.new pairs.now) }
        ensures past { OnOk result (tick < slice_index nexts.new k) }
        ensures others { OnOk result ((j : ℕ) → tick < slice_index nexts.old j
            → tick < slice_index nexts.new j) }
        ensures value { OnOk result ((pair : Pair) → starts.new.items ≡ add_start
            self.now.scenario.now (tables_by self.now.windows.now) self.now.sure.now
            self.now.barring tick starts.old.items (slice_index_or pairs.now k pair)) }
    {
        if tick < nexts[k] {
            return Ok(());
        }
        let pair = pairs[k];
        let count = starts.len();
        self.add_start(tick, starts, memos, pair)?;
        if count < starts.len() {
            self.hasten(nexts, pairs, pair.group, tick);
        }
        nexts[k] = self.next_uncovered(starts, tick, pair);
        Ok(())
    }

    /// Adds the starts of a tick.
    fn add_starts(
        &self,
        tick: u32,
        starts: &mut Vec<Start>,
        memos: &mut [Memo],
        nexts: &mut [u32],
        pairs: &[Pair],
    ) -> Result<(), AllocError>
        requires messages { All (λ p. p.message < length self.now.scenario.now.multicasts) pairs.now }
        requires groups { All (λ p. p.group < MOST_GROUPS) pairs.now }
        requires few { length self.now.scenario.now.multicasts ≤ MOST_MULTICASTS }
        requires tick { tick < u32.MAX }
        requires long { length nexts.old ≡ length pairs.now }
        requires places { length memos.old ≡ length self.now.scenario.now.multicasts * MOST_GROUPS }
        requires current { AreCurrent self.now.scenario.now (tables_by self.now.windows.now).times
            self.now.sure.now self.now.bars.now starts.old.items tick memos.old }
        requires covered { AreCovered self.now.scenario.now (tables_by self.now.windows.now)
            self.now.sure.now self.now.barring starts.old.items tick nexts.old pairs.now }
        ensures current { OnOk result (AreCurrent self.now.scenario.now
            (tables_by self.now.windows.now).times
            self.now.sure.now self.now.bars.now starts.new.items tick memos.new) }
        ensures covered { OnOk result (AreCovered self.now.scenario.now
            (tables_by self.now.windows.now)
            self.now.sure.now self.now.barring starts.new.items tick nexts.new pairs.now) }
        ensures past { OnOk result (All (λ next. tick < next) nexts.new) }
        ensures value { OnOk result (starts.new.items ≡ fold (add_start self.now.scenario.now
            (tables_by self.now.windows.now) self.now.sure.now self.now.barring tick)
            starts.old.items pairs.now) }
    {
        for k in 0..pairs.len() {
            self.visit(tick, starts, memos, nexts, pairs, k)?;
        }
        Ok(())
    }

    /// Writes for each pair the first tick at which it may be committed, in the place of what stood in
    /// the list.
    fn write_first_commits(&self, pairs: &[Pair], nexts: &mut Vec<u32>) -> Result<(), AllocError>
        requires messages { All (λ p. p.message < length self.now.scenario.now.multicasts) pairs.now }
        requires groups { All (λ p. p.group < MOST_GROUPS) pairs.now }
        ensures long { OnOk result (length nexts.new.items ≡ length pairs.now) }
        ensures idle { OnOk result ((k : ℕ) (pair : Pair) (tick : ℕ) → k < length pairs.now
            → tick < slice_index nexts.new.items k → may_commit self.now.scenario.now
            (tables_by self.now.windows.now).times tick (slice_index_or pairs.now k pair) ≡ false) }
    {
        nexts.clear();
        for pair in pairs {
            nexts.push(self.next_commit_of(*pair, 0, u32::MAX))?;
        }
        Ok(())
    }

    /// Writes the starts before a tick in the place of what stood in the list, from one tick at which
    /// any may be added to the next.
    pub(crate) fn write_starts(
        &self,
        pairs: &[Pair],
        end: u32,
        starts: &mut Vec<Start>,
        memos: &mut Vec<Memo>,
        nexts: &mut Vec<u32>,
    ) -> Result<(), AllocError>
        requires pairs { pairs.now ≡ pairs_of self.now.scenario.now }
        requires messages { All (λ p. p.message < length self.now.scenario.now.multicasts) pairs.now }
        requires groups { All (λ p. p.group < MOST_GROUPS) pairs.now }
        ensures { OnOk result (starts.new.items ≡ starts_before self.now.scenario.now
            (tables_by self.now.windows.now) self.now.sure.now self.now.barring end) }
    {
        starts.clear();
        write_nothing(memos, self.scenario.message_count() * MOST_GROUPS)?;
        self.write_first_commits(pairs, nexts)?;
        let mut tick = least(nexts, end);
        while tick < end {
            self.add_starts(
                tick,
                starts,
                memos.as_mut_slice(),
                nexts.as_mut_slice(),
                pairs,
            )?;
            tick = least(nexts, end);
        }
        Ok(())
    }
}

/// Writes memos of nothing at so many places, in the place of what stood in the list.
fn write_nothing(memos: &mut Vec<Memo>, places: usize) -> Result<(), AllocError>
    ensures long { OnOk result (length memos.new.items ≡ places) }
    ensures nothing { OnOk result (All (λ t. (t.by ≡ 0) × (t.stamps ≡ [])) memos.new.items) }
{
    memos.clear();
    for _place in 0..places {
        memos.push(Memo::nothing())?;
    }
    Ok(())
}
