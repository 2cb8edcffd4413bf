ghost use Rattle.std.specs.Prelude.{◌≡◌, ◌<◌, ◌≤◌, All, length};
ghost use Rattle.convoy_draft.specs.declared.limits.TheConstants.{MOST_GROUPS, MOST_MULTICASTS};
ghost use Rattle.convoy_starts.specs.Links.{IsLink};
ghost use Rattle.convoy_leads.specs.Openings.{IsOpenCase, IsOpening};

use super::want::{Want, When};
use convoy_intervals::DelayBox;
use convoy_leads::{Commit, Link, OpenCase, Opening};
use convoy_packets::Instance;
use convoy_scenario::{MOST_GROUPS, MOST_MULTICASTS};
use convoy_sure::{Windows, destinations, target_group};
use std::alloc::{AllocError, Global};

/// What a chain speaks of: a scenario, a box of its delays and waits, and windows of it that are cut for
/// a case.
#[derive(Drop)]
struct Scene<'a> {
    instance: &'a Instance,
    delay_box: &'a DelayBox,
    windows: &'a Windows,
}

/// What the links of a chain want of the delay of each packet of a box, and of the waits: the case that
/// leads leave open for a latency in ticks, and how a stamp of the target may exceed the rival's there.
/// Where some message may wait, the case wants nothing beside a chain: waits make it hold in most halves. Where the
/// rival is to come first, its stamp at the target's group is to be low, too. The error is that memory ran out.
pub(crate) fn wants_of(
    alloc: Global,
    instance: &Instance,
    delay_box: &DelayBox,
    opening: &Opening,
    latency: u32,
    rival_first: bool,
) -> Result<Vec<Want>, AllocError>
    requires { IsOpening instance.now opening.now }
{
    let mut wants = Vec::new(alloc);
    wants.resize(instance.table().len(), Want::nothing())?;
    let scene = Scene {
        instance,
        delay_box,
        windows: &opening.case.windows,
    };
    if opening.links.is_empty() || !some_may_wait(instance) {
        scene.add_case(wants.as_mut_slice(), &opening.case, latency);
    }
    if opening.links.is_empty() {
        scene.add_order(wants.as_mut_slice(), opening.case.rival);
    }
    for link in &opening.links {
        scene.add_link(wants.as_mut_slice(), link);
    }
    if rival_first {
        scene.add_rival_first(wants.as_mut_slice(), opening.case.rival);
    }
    Ok(wants)
}

/// Whether some message may wait.
pub(crate) fn some_may_wait(instance: &Instance) -> bool {
    for message in 0..instance.message_count() {
        if instance.longest_wait(message) > 0 {
            return true;
        }
    }
    false
}

/// Adds what a link wants to what is wanted of the packet at a place, if there is such a packet.
fn add(wants: &mut [Want], place: Option<u16>, want: Want) {
    if let Some(place) = place {
        let place = usize::from(place);
        if place < wants.len() {
            wants[place] = wants[place].and(want);
        }
    }
}

/// The least and the greatest ticks of a place in a box; 0 and 0 where there is no such place.
pub(crate) fn range_at(delay_box: &DelayBox, place: Option<u16>) -> (u16, u16)
    ensures ordered { result.0 ≤ result.1 }
{
    match place {
        Some(place) if usize::from(place) < delay_box.len() => delay_box.range(usize::from(place)),
        _ => (0, 0),
    }
}

impl<'a> Scene<'a> {
    /// The least and the greatest ticks of a place in the box.
    fn range_at(&self, place: Option<u16>) -> (u32, u32) {
        let (least, most) = range_at(self.delay_box, place);
        (u32::from(least), u32::from(most))
    }

    /// A message is to arrive at a group in time, by its delay on the way there or by its wait.
    fn arrives(&self, wants: &mut [Want], message: usize, group: usize, when: When)
        requires { message < length self.now.instance.now.multicasts }
    {
        let table = self.instance.table();
        let (wait, delay) = (table.wait(message), table.multicast_to(message, group));
        let issued = self.instance.issue_tick(message);
        add(wants, delay, when.wanted(issued, self.range_at(wait)));
        add(wants, wait, when.wanted(issued, self.range_at(delay)));
    }

    /// The stamp of a message at group `from` is to come to another group in time.
    fn comes(&self, wants: &mut [Want], message: usize, from: usize, to: usize, when: When)
        requires message { message < MOST_MULTICASTS }
        requires from { from < MOST_GROUPS }
    {
        let place = self.instance.table().propose(message, from, to);
        let least = self.windows.least_arrival(message, from);
        let most = self.windows.greatest_arrival(message, from);
        add(wants, place, when.wanted(0, (least, most)));
    }

    /// A message is to arrive at group `by` as early as it may, or later, and its stamp is to come from there to
    /// another group at that tick or later.
    fn comes_late(&self, wants: &mut [Want], message: usize, by: usize, to: usize, tick: u32)
        requires message { message < length self.now.instance.now.multicasts }
        requires few { message < MOST_MULTICASTS }
        requires by { by < MOST_GROUPS }
    {
        let first = self.windows.least_arrival(message, by);
        self.arrives(wants, message, by, When::Since(first));
        self.comes(wants, message, by, to, When::Since(tick));
    }

    /// Adds what an open case wants: the rival is committed after the latency, by way of the one
    /// group, and arrives before the target is committed, which the other group's stamp keeps back.
    fn add_case(&self, wants: &mut [Want], case: &OpenCase, latency: u32)
        requires { IsOpenCase self.now.instance.now case.now }
    {
        let target = self.instance.target_message();
        let group = target_group(self.instance.scenario());
        let rival = case.rival;
        let late = (self.instance.issue_tick(target).saturating_add(latency)).saturating_add(1);
        self.comes_late(wants, rival, case.rival_by, group, late);
        let first = self.windows.least_arrival(rival, group);
        self.comes_late(wants, target, case.target_by, group, first);
        let committed = self.windows.greatest_settling(target, group);
        self.arrives(wants, rival, group, When::By(committed));
    }

    /// Adds what is wanted where the rival arrives at the target's group before the target.
    fn add_order(&self, wants: &mut [Want], rival: usize)
        requires { rival < length self.now.instance.now.multicasts }
    {
        let target = self.instance.target_message();
        let group = target_group(self.instance.scenario());
        let (first, last) = (
            self.windows.least_arrival(rival, group),
            self.windows.greatest_arrival(target, group),
        );
        self.arrives(wants, rival, group, When::By(last));
        self.arrives(wants, target, group, When::Since(first));
    }

    /// Adds what keeps the stamp of the rival at the target's group low: each message that may arrive there before it,
    /// and need not, is to arrive after it.
    fn add_rival_first(&self, wants: &mut [Want], rival: usize)
        requires { rival < length self.now.instance.now.multicasts }
    {
        let group = target_group(self.instance.scenario());
        let first = self.windows.least_arrival(rival, group);
        for other in 0..self.instance.message_count() {
            if other != rival
                && self.instance.destinations(other).contains(&group)
                && self.windows.least_arrival(other, group) < first
                && first < self.windows.greatest_arrival(other, group)
            {
                self.arrives(wants, other, group, When::Since(first));
            }
        }
    }

    /// Adds what a link wants: its message and those that it counts arrive in time, after the commit
    /// that raised the clock of its group, and that commit is early enough.
    fn add_link(&self, wants: &mut [Want], link: &Link)
        requires { IsLink self.now.instance.now link.now }
    {
        self.arrives(wants, link.message, link.group, When::Since(link.since));
        self.arrives(wants, link.message, link.group, When::By(link.by));
        for message in link.others.numbers() {
            self.arrives(wants, *message, link.group, When::Since(link.since));
            self.arrives(wants, *message, link.group, When::By(link.by));
        }
        if let Some(commit) = link.commit {
            self.add_commit(wants, commit, link.group);
        }
    }

    /// Adds what a commit at a group wants: all stamps of its message have come there by its tick.
    fn add_commit(&self, wants: &mut [Want], commit: Commit, group: usize)
        requires message { commit.message < length self.now.instance.now.multicasts }
        requires group { group < MOST_GROUPS }
    {
        let Commit { message, at } = commit;
        for from in destinations(self.instance.scenario(), message) {
            let sent = at.saturating_sub(self.windows.least_proposal(message, *from, group));
            self.arrives(wants, message, *from, When::By(sent));
            self.comes(wants, message, *from, group, When::By(at));
        }
    }
}
