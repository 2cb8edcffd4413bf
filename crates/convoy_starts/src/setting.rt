ghost use Rattle.std.specs.Prelude.{◌≡◌, ℕ, ◌*◌, ◌<◌, ◌≤◌, length, map, slice_index, All};
ghost use Rattle.std.specs.List.{range_with_len};
ghost use Rattle.convoy_draft.specs.declared.limits.TheConstants.{MOST_GROUPS, MOST_MULTICASTS};
ghost use Rattle.convoy_sim.specs.Delivery.{addressed_to};
ghost use Rattle.convoy_sure.specs.SureLeads.{pair_count, sure_after, sure_later};
ghost use Rattle.convoy_sure.specs.Windows.{tables_by};
ghost use Rattle.convoy_starts.specs.Starts.{arrivals_since, may_arrive};
ghost use Rattle.convoy_starts.specs.Mosts.{bars_of};

use convoy_scenario::{MOST_GROUPS, MOST_MULTICASTS, Scenario, Time};
use convoy_sure::{Messages, Sure, Windows, may_be_earlier, those_after, those_later};

/// What the most of stamps is told from: a scenario, with its kind of time, the messages that go to
/// each group and how many local stamps there are; the windows of a box; what is sure of one message;
/// and the messages that are barred, each in turn: all, or the target alone.
#[derive(Drop)]
pub struct Setting<'a> {
    /// The scenario.
    pub scenario: &'a Scenario,
    /// Its kind of time.
    pub time: Time,
    /// The messages that go to each group.
    pub audiences: &'a [Messages],
    /// The windows.
    pub windows: &'a Windows,
    /// What is sure of the message.
    pub sure: &'a Sure,
    /// How many local stamps there are.
    pub stamps: u32,
    /// Whether each message is barred in turn.
    pub barring: bool,
    /// The messages that are barred, each in turn.
    pub bars: &'a [usize],
    ghost kind: { time ≡ scenario.now.time },
    ghost groups: { audiences.now ≡ map (addressed_to scenario.now) (range_with_len 0 MOST_GROUPS) },
    ghost count: { stamps ≡ pair_count scenario.now },
    ghost few: { stamps ≤ MOST_MULTICASTS * MOST_GROUPS },
    ghost barred: { bars.now ≡ bars_of scenario.now barring },
    ghost barred_few: { length bars.now ≤ MOST_MULTICASTS },
}

impl<'a> Setting<'a> {
    /// The place of the target among the bars.
    pub(crate) fn bar_of_target(&self) -> usize
        ensures within { result < length self.now.bars.now }
        ensures value { slice_index self.now.bars.now result ≡ self.now.scenario.now.target_message }
    {
        if self.barring {
            self.scenario.target_message()
        } else {
            0
        }
    }

    /// The messages that go to a group.
    pub(crate) fn addressed_to(&self, group: usize) -> &[usize]
        requires { group < MOST_GROUPS }
        ensures list { result.now ≡ addressed_to self.now.scenario.now group }
        ensures known { All (λ z. z < MOST_MULTICASTS) result.now }
        ensures few { length result.now ≤ MOST_MULTICASTS }
    {
        self.audiences[group].numbers()
    }

    /// Whether message `z` may arrive at a group at the tick `since` or later, and before message
    /// `q`, which arrives there by that tick.
    pub(crate) fn may_arrive(&self, tick: u32, q: usize, group: usize, since: u32, z: usize) -> bool
        requires message { z < MOST_MULTICASTS }
        requires group { group < MOST_GROUPS }
        ensures { result ≡ may_arrive self.now.scenario.now.time
            (tables_by self.now.windows.now).times tick q group since z }
    {
        z != q
            && may_be_earlier(
                self.time,
                since.max(self.windows.least_arrival(z, group)),
                z,
                tick,
                q,
            )
            && since <= self.windows.greatest_arrival(z, group)
    }

    /// The messages that may do so.
    pub(crate) fn arrivals_since(&self, tick: u32, q: usize, group: usize, since: u32) -> Messages
        requires group { group < MOST_GROUPS }
        ensures { result ≡ arrivals_since self.now.scenario.now
            (tables_by self.now.windows.now).times tick q group since }
    {
        let mut arrivals = Messages::new();
        for z in self.addressed_to(group) {
            if self.may_arrive(tick, q, group, since, *z) {
                arrivals.push(*z);
            }
        }
        arrivals
    }

    /// The messages that surely arrive at a group after message `q`, which arrives there by that
    /// tick.
    pub(crate) fn sure_after(&self, tick: u32, q: usize, group: usize) -> Messages
        requires group { group < MOST_GROUPS }
        ensures { result ≡ sure_after self.now.scenario.now
            (tables_by self.now.windows.now).times tick q group }
    {
        those_after(
            self.windows,
            self.addressed_to(group),
            self.time,
            tick,
            q,
            group,
        )
    }

    /// The messages that surely arrive at a group after that tick.
    pub(crate) fn sure_later(&self, tick: u32, group: usize) -> Messages
        requires group { group < MOST_GROUPS }
        ensures { result ≡ sure_later self.now.scenario.now
            (tables_by self.now.windows.now).times tick group }
    {
        those_later(self.windows, self.addressed_to(group), tick, group)
    }
}
