ghost use Rattle.std.specs.Prelude.{◌≡◌, ◌≢◌, ℕ, ◌+◌, ◌*◌, ◌<◌, ◌≤◌, ◌==◌, not, max, min, length, map, slice_index, All, IsFalse};
ghost use Rattle.std.specs.List.{filter};
ghost use Rattle.convoy_sim.specs.Moments.{next_arrival};
ghost use Rattle.convoy_draft.specs.declared.limits.TheConstants.{MOST_GROUPS, MOST_MULTICASTS};
ghost use Rattle.convoy_sure.specs.SureLeads.{lead_at, sure_later, top_of};
ghost use Rattle.convoy_sure.specs.Windows.{tables_by};
ghost use Rattle.convoy_starts.specs.Starts.{arrivals_since, arrives_by, capped, clock_alone, clock_from};
ghost use Rattle.convoy_starts.specs.Starts.{clock_high, lead_by, may_have_come, raise_high, stamp_high, value_for, window};
ghost use Rattle.convoy_starts.specs.Mosts.{AreFor, AreCurrent, may_precede};

use super::memo::Memo;
use super::mosts::{Mosts, cap_all, level, raise_all};
use super::setting::Setting;
use super::start::Start;
use super::window::{capped, window};
use convoy_scenario::{MOST_GROUPS, MOST_MULTICASTS, Time};
use convoy_sim::next_arrival;
use convoy_sure::{Messages, destinations, lead_at, top_of};

/// Whether a start may come before message `q` arrives at a group by that tick.
pub(crate) fn may_precede(time: Time, q: usize, group: usize, tick: u32, start: &Start) -> bool
    ensures { result ≡ may_precede time q group tick start.now }
{
    start.group() == group && next_arrival(time, start.at()) <= tick && start.message() != q
}

/// Whether a proposal may have come from a group to another one by that tick.
pub(crate) fn may_have_come(tick: u32, from: usize, group: usize) -> bool
    ensures { result ≡ may_have_come tick from group }
{
    from != group && tick > 0
}

/// How a group's clock may rise by a start until a message arrives there: by the arrivals of these
/// others, from that value to that clock, where no message that lowers the value is barred.
#[derive(Drop)]
pub(crate) struct Rise {
    pub(crate) others: Messages,
    pub(crate) value: u32,
    pub(crate) clock: u32,
}

impl<'a> Setting<'a> {
    /// The most that a group's clock can be which starts at a value and gives stamps to some of the
    /// messages.
    fn window(&self, group: usize, messages: &Messages, value: u32) -> u32
        requires group { group < MOST_GROUPS }
        requires small { value ≤ u16.MAX }
        ensures small { result ≤ value + MOST_MULTICASTS }
        ensures value { result ≡ window self.now.sure.now.time
            (λ z. lead_at self.now.sure.now.leads z group) messages.now value }
    {
        let sure = self.sure;
        window(sure.leads(), group, messages.numbers(), sure.time(), value)
    }

    /// The top of the leads over the messages at a group.
    fn top_of(&self, group: usize, messages: &Messages) -> u32
        requires { group < MOST_GROUPS }
        ensures { result ≡ top_of (λ z. lead_at self.now.sure.now.leads z group) messages.now }
    {
        top_of(self.sure.leads(), group, messages.numbers())
    }

    /// The clock of a group as message `q` arrives there by that tick, with no commit there before.
    pub(crate) fn clock_alone(&self, q: usize, group: usize, tick: u32) -> u32
        requires group { group < MOST_GROUPS }
        ensures small { result ≤ u16.MAX }
        ensures value { result ≡ clock_alone self.now.scenario.now
            (tables_by self.now.windows.now).times self.now.sure.now q group tick }
    {
        let arrivals = self.arrivals_since(tick, q, group, 0);
        self.window(group, &arrivals, 0)
    }

    /// The messages that may arrive at a group after a start, and before message `q`, which arrives
    /// there by that tick.
    pub(crate) fn arrivals_after(
        &self,
        q: usize,
        group: usize,
        tick: u32,
        start: &Start,
    ) -> Messages
        requires group { group < MOST_GROUPS }
        ensures { result ≡ filter (λ z. not (z == start.now.message))
            (arrivals_since self.now.scenario.now (tables_by self.now.windows.now).times tick q group
            (next_arrival self.now.scenario.now.time start.now.at)) }
    {
        let since = next_arrival(self.time, start.at());
        let mut arrivals = Messages::new();
        for z in self.addressed_to(group) {
            if self.may_arrive(tick, q, group, since, *z) && *z != start.message() {
                arrivals.push(*z);
            }
        }
        arrivals
    }

    /// How the clock of a group may rise by a start until message `q` arrives there by that tick.
    pub(crate) fn rise(&self, q: usize, group: usize, tick: u32, start: &Start) -> Rise
        requires group { group < MOST_GROUPS }
        ensures others { result.others ≡ filter (λ z. not (z == start.now.message))
            (arrivals_since self.now.scenario.now (tables_by self.now.windows.now).times tick q group
            (next_arrival self.now.scenario.now.time start.now.at)) }
        ensures clock { result.clock ≡ window self.now.sure.now.time
            (λ z. lead_at self.now.sure.now.leads z group) result.others result.value }
        ensures small { result.clock ≤ u16.MAX + MOST_MULTICASTS }
    {
        let others = self.arrivals_after(q, group, tick, start);
        let value = start.value_for(q, q);
        let clock = self.window(group, &others, value);
        Rise {
            others,
            value,
            clock,
        }
    }

    /// The clock of a group as message `q` arrives there, after such a rise by a start, where message
    /// `x` is barred.
    pub(crate) fn clock_by(
        &self,
        x: usize,
        q: usize,
        group: usize,
        start: &Start,
        rise: &Rise,
    ) -> u32
        requires group { group < MOST_GROUPS }
        requires clock { rise.now.clock ≡ window self.now.sure.now.time
            (λ z. lead_at self.now.sure.now.leads z group) rise.now.others rise.now.value }
        requires small { rise.now.clock ≤ u16.MAX + MOST_MULTICASTS }
        ensures value { result ≡ window self.now.sure.now.time
            (λ z. lead_at self.now.sure.now.leads z group) rise.now.others (value_for start.now x q) }
        ensures small { result ≤ u16.MAX + MOST_MULTICASTS }
    {
        let value = start.value_for(x, q);
        if value == rise.value {
            rise.clock
        } else {
            self.window(group, &rise.others, value)
        }
    }

    /// Whether a start may raise one of the clocks of a group as message `q` arrives there, where at most so
    /// many messages arrive before.
    fn may_raise(&self, clocks: &[u32], q: usize, start: &Start, many: u32) -> bool
        requires long { length clocks.now ≡ length self.now.bars.now }
        requires few { many ≤ MOST_MULTICASTS }
        ensures { IsFalse result → (k : ℕ) → k < length clocks.now → slice_index self.now.bars.now k ≢ start.now.message
            → value_for start.now (slice_index self.now.bars.now k) q + many ≤ slice_index clocks.now k }
    {
        for k in 0..clocks.len() {
            let bar = self.bars[k];
            if bar != start.message() && clocks[k] < start.value_for(bar, q) + many {
                return true;
            }
        }
        false
    }

    /// Raises the clocks of a group as message `q` arrives there by that tick, one for each of the
    /// bars, to what they may be by a start. So many messages may arrive there before.
    fn raise_clocks(
        &self,
        clocks: &mut [u32],
        q: usize,
        group: usize,
        tick: u32,
        start: &Start,
        many: u32,
    )
        requires group { group < MOST_GROUPS }
        requires few { many ≤ MOST_MULTICASTS }
        requires many { many ≡ length (arrivals_since self.now.scenario.now
            (tables_by self.now.windows.now).times tick q group 0) }
        requires long { length clocks.old ≡ length self.now.bars.now }
        requires small { All (λ clock. clock ≤ u16.MAX + MOST_MULTICASTS) clocks.old }
        ensures small { All (λ clock. clock ≤ u16.MAX + MOST_MULTICASTS) clocks.new }
        ensures value { (k : ℕ) → k < length clocks.old → slice_index clocks.new k
            ≡ max (slice_index clocks.old k) (clock_from self.now.scenario.now
            (tables_by self.now.windows.now).times self.now.sure.now
            (slice_index self.now.bars.now k) q group tick start.now) }
    {
        if !may_precede(self.time, q, group, tick, start) {
            return;
        }
        if !self.may_raise(clocks, q, start, many) {
            return;
        }
        let rise = self.rise(q, group, tick, start);
        for k in 0..clocks.len() {
            if self.bars[k] != start.message() {
                let clock = self.clock_by(self.bars[k], q, group, start, &rise);
                clocks[k] = clocks[k].max(clock);
            }
        }
    }

    /// The clocks, for each of the bars, by no start or by any. The last starts come first: they raise clocks so high that
    /// most of the others need not be looked at.
    fn clocks_high(&self, starts: &[Start], q: usize, group: usize, tick: u32) -> Mosts
        requires group { group < MOST_GROUPS }
        ensures small { All (λ clock. clock ≤ u16.MAX + MOST_MULTICASTS) result.items }
        ensures value { AreFor (λ x. clock_high self.now.scenario.now
            (tables_by self.now.windows.now).times self.now.sure.now starts.now x q group tick)
            self.now.bars.now result.items }
    {
        let arrivals = self.arrivals_since(tick, q, group, 0);
        let many = arrivals.numbers().len() as u32;
        let mut clocks = level(self.bars, self.window(group, &arrivals, 0));
        for place in 0..starts.len() {
            let start = &starts[starts.len() - 1 - place];
            self.raise_clocks(clocks.as_mut_slice(), q, group, tick, start, many);
        }
        clocks
    }

    /// The lead over message `q` at a group, and over those that surely arrive there after it, if it
    /// arrives by that tick.
    fn lead_by(&self, q: usize, group: usize, tick: u32) -> u32
        requires message { q < MOST_MULTICASTS }
        requires group { group < MOST_GROUPS }
        ensures { result ≡ lead_by self.now.scenario.now
            (tables_by self.now.windows.now).times self.now.sure.now q group tick }
    {
        let after = self.sure_after(tick, q, group);
        lead_at(self.sure.leads(), q, group).max(self.top_of(group, &after))
    }

    /// Turns the most of clocks into that of the stamps that they give, over which there is such a lead.
    fn turn_into_stamps(&self, clocks: &mut [u32], lead: u32)
        requires { All (λ clock. clock ≤ u16.MAX + MOST_MULTICASTS) clocks.old }
        ensures { (k : ℕ) → k < length clocks.old → slice_index clocks.new k
            ≡ min self.now.stamps (capped self.now.sure.now.time lead (slice_index clocks.old k + 1)) }
    {
        let sure = self.sure.time();
        for k in 0..clocks.len() {
            clocks[k] = self.stamps.min(capped(sure, lead, clocks[k] + 1));
        }
    }

    /// The most that the stamp of message `q` at a group can be, if it arrives there by that tick, for
    /// each of the bars.
    pub(crate) fn stamps_high(&self, starts: &[Start], q: usize, group: usize, tick: u32) -> Mosts
        requires message { q < MOST_MULTICASTS }
        requires group { group < MOST_GROUPS }
        ensures { AreFor (λ x. stamp_high self.now.scenario.now
            (tables_by self.now.windows.now).times self.now.sure.now starts.now x q group tick)
            self.now.bars.now result.items }
    {
        let lead = self.lead_by(q, group, tick);
        let mut stamps = self.clocks_high(starts, q, group, tick);
        self.turn_into_stamps(stamps.as_mut_slice(), lead);
        stamps
    }

    /// The last tick by which message `c` arrives at group `from`, if it is committed at another group
    /// at that tick.
    pub(crate) fn arrives_by(&self, tick: u32, c: usize, group: usize, from: usize) -> u32
        requires message { c < MOST_MULTICASTS }
        requires group { group < MOST_GROUPS }
        requires from { from < MOST_GROUPS }
        ensures { result ≡ arrives_by (tables_by self.now.windows.now) tick c group from }
    {
        let sent = tick.saturating_sub(self.windows.least_proposal(c, from, group).max(1));
        self.windows.greatest_arrival(c, from).min(sent)
    }

    /// Raises numbers, one for each of the bars, to the most that the stamp of message `c` at a group
    /// can be, if it arrives there by that tick. What the memos say is
    /// taken from there, and what they do not is written there.
    fn raise_by_stamps(
        &self,
        mosts: &mut [u32],
        memos: &mut [Memo],
        starts: &[Start],
        c: usize,
        group: usize,
        by: u32,
    )
        requires message { c < length self.now.scenario.now.multicasts }
        requires known { c < MOST_MULTICASTS }
        requires group { group < MOST_GROUPS }
        requires long { length mosts.old ≡ length self.now.bars.now }
        requires places { length memos.old ≡ length self.now.scenario.now.multicasts * MOST_GROUPS }
        ensures current { (tick : ℕ) → by < next_arrival self.now.scenario.now.time tick
            → AreCurrent self.now.scenario.now (tables_by self.now.windows.now).times self.now.sure.now
            self.now.bars.now starts.now tick memos.old
            → AreCurrent self.now.scenario.now (tables_by self.now.windows.now).times self.now.sure.now
            self.now.bars.now starts.now tick memos.new }
        ensures value { (tick : ℕ) → by < next_arrival self.now.scenario.now.time tick
            → AreCurrent self.now.scenario.now (tables_by self.now.windows.now).times self.now.sure.now
            self.now.bars.now starts.now tick memos.old
            → (k : ℕ) → k < length mosts.old → slice_index mosts.new k
            ≡ max (slice_index mosts.old k) (stamp_high self.now.scenario.now
            (tables_by self.now.windows.now).times self.now.sure.now starts.now
            (slice_index self.now.bars.now k) c group by) }
    {
        let place = c * MOST_GROUPS + group;
        if !memos[place].is_of(c, group, by) || memos[place].stamps().len() != mosts.len() {
            memos[place] = Memo::new(c, group, by, self.stamps_high(starts, c, group, by));
        }
        raise_all(mosts, memos[place].stamps());
    }

    /// The lead over those that surely arrive at a group after that tick.
    fn later_lead(&self, tick: u32, group: usize) -> u32
        requires group { group < MOST_GROUPS }
        ensures { result ≡ top_of (λ z. lead_at self.now.sure.now.leads z group)
            (sure_later self.now.scenario.now (tables_by self.now.windows.now).times tick group) }
    {
        let later = self.sure_later(tick, group);
        self.top_of(group, &later)
    }

    /// The most that the commit of message `c` at a group at that tick can raise the clock there to,
    /// for each of the bars.
    pub(crate) fn raises_high(
        &self,
        memos: &mut [Memo],
        starts: &[Start],
        tick: u32,
        c: usize,
        group: usize,
    ) -> Mosts
        requires message { c < length self.now.scenario.now.multicasts }
        requires group { group < MOST_GROUPS }
        requires places { length memos.old ≡ length self.now.scenario.now.multicasts * MOST_GROUPS }
        requires current { AreCurrent self.now.scenario.now (tables_by self.now.windows.now).times
            self.now.sure.now self.now.bars.now starts.now tick memos.old }
        ensures current { AreCurrent self.now.scenario.now (tables_by self.now.windows.now).times
            self.now.sure.now self.now.bars.now starts.now tick memos.new }
        ensures value { AreFor (λ x. raise_high self.now.scenario.now
            (tables_by self.now.windows.now) self.now.sure.now starts.now tick x c group)
            self.now.bars.now result.items }
    {
        let mut mosts = level(self.bars, 0);
        for from in destinations(self.scenario, c) {
            if may_have_come(tick, *from, group) {
                let by = self.arrives_by(tick, c, group, *from);
                self.raise_by_stamps(mosts.as_mut_slice(), memos, starts, c, *from, by);
            }
        }
        cap_all(
            mosts.as_mut_slice(),
            self.sure.time(),
            self.later_lead(tick, group),
        );
        mosts
    }
}
