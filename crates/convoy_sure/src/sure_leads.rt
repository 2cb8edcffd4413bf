ghost use Rattle.std.specs.Prelude.{◌≡◌, ℕ, ◌+◌, ◌*◌, ◌<◌, ◌≤◌, length, map, All, IfOk};
ghost use Rattle.std.specs.List.{fold, range_with_len};
ghost use Rattle.convoy_draft.specs.declared.limits.TheConstants.{MOST_GROUPS, MOST_MULTICASTS};
ghost use Rattle.convoy_scenario.specs.Scenario.{message_at};
ghost use Rattle.convoy_sim.specs.Delivery.{addressed_to};
ghost use Rattle.convoy_sim.specs.Times.{greatest};
ghost use Rattle.convoy_stamps.specs.Reach.{pairs_of};
ghost use Rattle.convoy_sure.specs.SureLeads.{first_leads, last_first, lead_at, leads_of, next_lead};
ghost use Rattle.convoy_sure.specs.SureLeads.{pair_count, sure_after, sure_behind, sure_later, sure_of};
ghost use Rattle.convoy_sure.specs.SureLeads.{sure_time, top_behind, top_of, with_lead};
ghost use Rattle.convoy_sure.specs.Windows.{tables_by};

use super::messages::{Messages, destinations};
use super::pairs::{last_first, target_group};
use super::ranks::top_of;
use super::sure::{Sure, lead_at};
use super::sure_arrivals::{those_after, those_later};
use super::windows::Windows;
use convoy_scenario::{MOST_GROUPS, MOST_MULTICASTS, Scenario};
use convoy_stamps::Pair;
use std::alloc::{AllocError, Global};

/// What is never exceeded by a lead, as it stands in a table: one more than there may be local
/// stamps.
const MOST_LEAD: u32 = 129;

/// What the sure leads of messages are told from: a scenario, with the messages that go to each group
/// and how many local stamps there are; and the windows of a box.
#[derive(Drop)]
struct Scene<'a> {
    scenario: &'a Scenario,
    audiences: &'a [Messages],
    windows: &'a Windows,
    stamps: u32,
    ghost known: { length scenario.now.multicasts ≤ MOST_MULTICASTS },
    ghost groups: { audiences.now ≡ map (addressed_to scenario.now) (range_with_len 0 MOST_GROUPS) },
    ghost count: { stamps ≡ pair_count scenario.now },
    ghost few: { stamps ≤ MOST_MULTICASTS * MOST_GROUPS },
}

impl<'a> Scene<'a> {
    /// The messages that go to a group.
    fn addressed_to(&self, group: usize) -> &[usize]
        requires { group < MOST_GROUPS }
        ensures list { result.now ≡ addressed_to self.now.scenario.now group }
        ensures known { All (λ z. z < MOST_MULTICASTS) result.now }
        ensures few { length result.now ≤ MOST_MULTICASTS }
    {
        self.audiences[group].numbers()
    }

    /// The messages that surely arrive at a group after message `q`, which arrives there by that
    /// tick.
    fn sure_after(&self, tick: u32, q: usize, group: usize) -> Messages
        requires group { group < MOST_GROUPS }
        ensures { result ≡ sure_after self.now.scenario.now
            (tables_by self.now.windows.now).times tick q group }
    {
        those_after(
            self.windows,
            self.addressed_to(group),
            self.scenario.time(),
            tick,
            q,
            group,
        )
    }

    /// The messages that surely arrive at a group after that tick.
    fn sure_later(&self, tick: u32, group: usize) -> Messages
        requires group { group < MOST_GROUPS }
        ensures { result ≡ sure_later self.now.scenario.now
            (tables_by self.now.windows.now).times tick group }
    {
        those_later(self.windows, self.addressed_to(group), tick, group)
    }

    /// The messages that surely arrive at group `y` after the clock there has passed the stamp of
    /// message `q` at a group.
    fn sure_behind(&self, q: usize, group: usize, y: usize) -> Messages
        requires message { q < MOST_MULTICASTS }
        requires group { group < MOST_GROUPS }
        requires there { y < MOST_GROUPS }
        ensures { result ≡ sure_behind self.now.scenario.now
            (tables_by self.now.windows.now).times q group y }
    {
        if y == group {
            self.sure_after(self.windows.greatest_arrival(q, group), q, group)
        } else {
            self.sure_later(self.windows.greatest_settling(q, y), y)
        }
    }

    /// The leads over the messages that surely arrive behind a pair at a group.
    fn top_behind(&self, leads: &[u32], pair: Pair, y: usize) -> u32
        requires message { pair.message < MOST_MULTICASTS }
        requires group { pair.group < MOST_GROUPS }
        requires there { y < MOST_GROUPS }
        requires small { All (λ l. l ≤ u16.MAX) leads.now }
        ensures { result ≡ top_behind self.now.scenario.now
            (tables_by self.now.windows.now).times leads.now pair y }
    {
        let behind = self.sure_behind(pair.message, pair.group, y);
        top_of(leads, y, behind.numbers())
    }

    /// The greatest of these over the destinations of the pair's message.
    fn tops_behind(&self, leads: &[u32], pair: Pair) -> u32
        requires message { pair.message < length self.now.scenario.now.multicasts }
        requires group { pair.group < MOST_GROUPS }
        requires small { All (λ l. l ≤ u16.MAX) leads.now }
        ensures { result ≡ greatest (map (top_behind self.now.scenario.now
            (tables_by self.now.windows.now).times leads.now pair)
            (message_at self.now.scenario.now pair.message).destinations) }
    {
        let mut most = 0;
        for y in destinations(self.scenario, pair.message) {
            most = most.max(self.top_behind(leads, pair, *y));
        }
        most
    }

    /// What the lead over a pair becomes.
    fn next_lead(&self, leads: &[u32], pair: Pair) -> u32
        requires message { pair.message < length self.now.scenario.now.multicasts }
        requires group { pair.group < MOST_GROUPS }
        requires small { All (λ l. l ≤ u16.MAX) leads.now }
        ensures value { result ≡ next_lead self.now.scenario.now
            (tables_by self.now.windows.now).times leads.now pair }
        ensures small { result ≤ MOST_LEAD }
    {
        let top = self.tops_behind(leads, pair);
        let lead = lead_at(leads, pair.message, pair.group).max(top);
        lead.min(self.stamps + 1)
    }

    /// Writes the lead over a pair into the table.
    fn write_lead(&self, leads: &mut [u32], pair: Pair)
        requires message { pair.message < length self.now.scenario.now.multicasts }
        requires group { pair.group < MOST_GROUPS }
        requires small { All (λ l. l ≤ MOST_LEAD) leads.old }
        requires long { length leads.old ≡ length self.now.scenario.now.multicasts * MOST_GROUPS }
        ensures value { leads.new ≡ with_lead self.now.scenario.now
            (tables_by self.now.windows.now).times leads.old pair }
        ensures small { All (λ l. l ≤ MOST_LEAD) leads.new }
        ensures long { length leads.new ≡ length self.now.scenario.now.multicasts * MOST_GROUPS }
    {
        let lead = self.next_lead(leads, pair);
        leads[pair.message * MOST_GROUPS + pair.group] = lead;
    }

    /// Writes the leads over some pairs into the table, one after the other.
    fn write_leads(&self, leads: &mut [u32], pairs: &[Pair])
        requires messages { All (λ p. p.message < length self.now.scenario.now.multicasts) pairs.now }
        requires groups { All (λ p. p.group < MOST_GROUPS) pairs.now }
        requires small { All (λ l. l ≤ MOST_LEAD) leads.old }
        requires long { length leads.old ≡ length self.now.scenario.now.multicasts * MOST_GROUPS }
        ensures value { leads.new ≡ fold (with_lead self.now.scenario.now
            (tables_by self.now.windows.now).times) leads.old pairs.now }
        ensures small { All (λ l. l ≤ MOST_LEAD) leads.new }
        ensures long { length leads.new ≡ length leads.old }
    {
        for pair in pairs {
            self.write_lead(leads, *pair);
        }
    }

    /// The leads of a message at the target's group over all pairs, which are given in the order of
    /// their latest arrivals, the last one first.
    #[tactic(auto, unfolding(crate::specs::SureLeads::leads_of))]
    fn leads_of(
        &self,
        alloc: Global,
        sorted: &[Pair],
        message: usize,
    ) -> Result<Vec<u32>, AllocError>
        requires sorted { sorted.now ≡ last_first self.now.scenario.now
            (tables_by self.now.windows.now).times }
        requires messages { All (λ p. p.message < length self.now.scenario.now.multicasts) sorted.now }
        requires groups { All (λ p. p.group < MOST_GROUPS) sorted.now }
        requires message { message < length self.now.scenario.now.multicasts }
        ensures value { IfOk result (λ leads. leads.items ≡ leads_of self.now.scenario.now
            (tables_by self.now.windows.now).times message) }
        ensures small { IfOk result (λ leads. All (λ l. l ≤ MOST_LEAD) leads.items) }
    {
        let mut leads = first_leads(alloc, self.scenario, message)?;
        self.write_leads(leads.as_mut_slice(), sorted);
        Ok(leads)
    }

    /// The top of the leads at a group.
    fn top_at(&self, leads: &[u32], group: usize) -> u32
        requires group { group < MOST_GROUPS }
        requires small { All (λ l. l ≤ MOST_LEAD) leads.now }
        ensures value { result ≡ top_of (λ z. lead_at leads.now z group)
            (addressed_to self.now.scenario.now group) }
        ensures small { result ≤ MOST_LEAD + MOST_MULTICASTS }
    {
        top_of(leads, group, self.addressed_to(group))
    }

    /// The sure time that a table of leads tells: the stamp of its message at the target's group has
    /// at least this time.
    #[tactic(auto, unfolding(crate::specs::SureLeads::sure_time))]
    fn sure_time(&self, leads: &[u32]) -> u32
        requires { All (λ l. l ≤ MOST_LEAD) leads.now }
        ensures value { result ≡ sure_time self.now.scenario.now leads.now }
        ensures small { result ≤ MOST_LEAD + MOST_MULTICASTS }
    {
        let mut most: u32 = 0;
        for group in 0..self.scenario.group_count() {
            most = most.max(self.top_at(leads, group));
        }
        most.saturating_sub(1)
    }

    /// What is sure of a message at the target's group.
    fn sure_of(&self, alloc: Global, sorted: &[Pair], message: usize) -> Result<Sure, AllocError>
        requires sorted { sorted.now ≡ last_first self.now.scenario.now
            (tables_by self.now.windows.now).times }
        requires messages { All (λ p. p.message < length self.now.scenario.now.multicasts) sorted.now }
        requires groups { All (λ p. p.group < MOST_GROUPS) sorted.now }
        requires message { message < length self.now.scenario.now.multicasts }
        ensures { IfOk result (λ sure. sure ≡ sure_of self.now.scenario.now
            (tables_by self.now.windows.now).times message) }
    {
        let leads = self.leads_of(alloc, sorted, message)?;
        let time = self.sure_time(&leads);
        Ok(Sure { leads, time })
    }
}

/// What is sure of a message at the target's group, in windows of a scenario. `audiences` are the
/// messages that go to each group ([`audiences`](super::audiences)), and `pairs` all messages with their
/// destinations ([`list_pairs`](super::list_pairs)). The error is that memory ran out.
pub fn sure_of(
    alloc: Global,
    scenario: &Scenario,
    audiences: &[Messages],
    pairs: &[Pair],
    windows: &Windows,
    message: usize,
) -> Result<Sure, AllocError>
    requires groups { audiences.now ≡ map (addressed_to scenario.now) (range_with_len 0 MOST_GROUPS) }
    requires pairs { pairs.now ≡ pairs_of scenario.now }
    requires messages { All (λ p. p.message < length scenario.now.multicasts) pairs.now }
    requires low { All (λ p. p.group < MOST_GROUPS) pairs.now }
    requires few { length pairs.now ≤ MOST_MULTICASTS * MOST_GROUPS }
    requires message { message < length scenario.now.multicasts }
    ensures { IfOk result
        (λ sure. sure ≡ sure_of scenario.now (tables_by windows.now).times message) }
{
    let _count = scenario.message_count();
    let sorted = last_first(alloc, windows, scenario, pairs)?;
    let scene = Scene {
        scenario,
        audiences,
        windows,
        stamps: pairs.len() as u32,
    };
    scene.sure_of(alloc, &sorted, message)
}

/// The table in which no lead is known but that of a message at the target's group over itself.
fn first_leads(alloc: Global, scenario: &Scenario, message: usize) -> Result<Vec<u32>, AllocError>
    requires { message < length scenario.now.multicasts }
    ensures value { IfOk result (λ leads. leads.items ≡ first_leads scenario.now message) }
    ensures small { IfOk result (λ leads. All (λ l. l ≤ MOST_LEAD) leads.items) }
    ensures long { IfOk result
        (λ leads. length leads.items ≡ length scenario.now.multicasts * MOST_GROUPS) }
{
    let mut leads = Vec::new(alloc);
    leads.resize(scenario.message_count() * MOST_GROUPS, 0)?;
    leads[message * MOST_GROUPS + target_group(scenario)] = 1;
    Ok(leads)
}
