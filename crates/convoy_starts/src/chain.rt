ghost use Rattle.std.specs.Prelude.{◌≡◌, ◌*◌, ◌<◌, ◌≤◌, length, All, IfOk, IfSome, IsTrue};
ghost use Rattle.convoy_draft.specs.declared.limits.TheConstants.{MOST_GROUPS, MOST_MULTICASTS};
ghost use Rattle.convoy_starts.specs.Links.{IsLink};

use super::scratch::Scratch;
use super::setting::Setting;
use super::stamps::{may_have_come, may_precede};
use super::start::Start;
use convoy_scenario::{MOST_GROUPS, MOST_MULTICASTS};
use convoy_sim::next_arrival;
use convoy_sure::{Messages, destinations};
use std::alloc::{AllocError, Global};

/// No chain is told further than this.
const MOST_LINKS: usize = MOST_MULTICASTS * MOST_GROUPS;

/// A link of a chain: how the stamp of a message at a group may come to be as great as leads say. The
/// clock of the group is raised by a commit, or by none, and then counts the other messages until the
/// message arrives.
#[derive(Drop)]
pub struct Link {
    /// The message whose stamp it is.
    pub message: usize,
    /// The group that gives it.
    pub group: usize,
    /// The last tick at which the message arrives there.
    pub by: u32,
    /// The commit that raised the clock of the group last.
    pub commit: Option<Commit>,
    /// The first tick at which messages are counted: 0 where no commit raised the clock.
    pub since: u32,
    /// The messages that are counted.
    pub others: Messages,
}

/// A commit of a message at a tick.
#[derive(Clone, Copy)]
pub struct Commit {
    /// The message.
    pub message: usize,
    /// The tick.
    pub at: u32,
}

/// A link with the message that is barred in it: that is committed nowhere before.
#[derive(Drop)]
struct BarredLink {
    link: Link,
    bar: usize,
}

impl<'a> Setting<'a> {
    /// The clock of a group as message `q` arrives there by that tick, by a start, where message `bar` is
    /// committed nowhere before; 0 by a start that cannot come before.
    fn clock_from(&self, bar: usize, q: usize, group: usize, tick: u32, start: &Start) -> u32
        requires group { group < MOST_GROUPS }
    {
        if start.message() != bar && may_precede(self.time, q, group, tick, start) {
            let rise = self.rise(q, group, tick, start);
            self.clock_by(bar, q, group, start, &rise)
        } else {
            0
        }
    }

    /// The place of the first start by which the clock of a group is greatest as message `q` arrives
    /// there by that tick, where message `bar` is committed nowhere before; none where it is as great by
    /// no start.
    fn highest_start(
        &self,
        starts: &[Start],
        bar: usize,
        q: usize,
        group: usize,
        tick: u32,
    ) -> Option<usize>
        requires group { group < MOST_GROUPS }
        ensures { IfSome result (λ place. place < length starts.now) }
    {
        let mut highest = self.clock_alone(q, group, tick);
        let mut found = None;
        for place in 0..starts.len() {
            let clock = self.clock_from(bar, q, group, tick, &starts[place]);
            if clock > highest {
                highest = clock;
                found = Some(place);
            }
        }
        found
    }

    /// The link of the stamp of a message at a group, if it arrives there by that tick and message `bar` is
    /// committed nowhere before. The link after it bars the one of the two messages for which its start
    /// gives less.
    fn link(
        &self,
        starts: &[Start],
        bar: usize,
        message: usize,
        group: usize,
        by: u32,
    ) -> BarredLink
        requires message { message < length self.now.scenario.now.multicasts }
        requires group { group < MOST_GROUPS }
        requires starts { All (λ s. s.message < length self.now.scenario.now.multicasts) starts.now }
        ensures { IsLink self.now.scenario.now result.link }
    {
        match self.highest_start(starts, bar, message, group, by) {
            None => BarredLink {
                link: Link {
                    message,
                    group,
                    by,
                    commit: None,
                    since: 0,
                    others: self.arrivals_since(by, message, group, 0),
                },
                bar,
            },
            Some(place) => {
                let start = &starts[place];
                BarredLink {
                    link: Link {
                        message,
                        group,
                        by,
                        commit: Some(Commit {
                            message: start.message(),
                            at: start.at(),
                        }),
                        since: next_arrival(self.time, start.at()),
                        others: self.arrivals_after(message, group, by, start),
                    },
                    bar: start.lesser_bar(bar, message),
                }
            }
        }
    }

    /// The most that the stamp of a commit's message at group `from` can be as it comes to the group of
    /// the commit, where message `bar` is committed nowhere before; 0 where none can have come.
    fn stamp_from(
        &self,
        starts: &[Start],
        bar: usize,
        commit: Commit,
        group: usize,
        from: usize,
    ) -> u32
        requires message { commit.message < length self.now.scenario.now.multicasts }
        requires known { commit.message < MOST_MULTICASTS }
        requires group { group < MOST_GROUPS }
        requires from { from < MOST_GROUPS }
    {
        if !may_have_come(commit.at, from, group) {
            return 0;
        }
        let by = self.arrives_by(commit.at, commit.message, group, from);
        let stamps = self.stamps_high(starts, commit.message, from, by);
        let place = if self.barring { bar } else { 0 };
        stamps.get(place).copied().unwrap_or(0)
    }

    /// The first group whose stamp a commit at a group may have raised the clock to most, where message
    /// `bar` is committed nowhere before; none where no stamp can have come.
    fn highest_stamp(
        &self,
        starts: &[Start],
        bar: usize,
        commit: Commit,
        group: usize,
    ) -> Option<usize>
        requires message { commit.message < length self.now.scenario.now.multicasts }
        requires group { group < MOST_GROUPS }
        ensures known { commit.message < MOST_MULTICASTS }
        ensures low { IfSome result (λ from. from < MOST_GROUPS) }
    {
        let mut highest = 0;
        let mut found = None;
        for from in destinations(self.scenario, commit.message) {
            let stamp = self.stamp_from(starts, bar, commit, group, *from);
            if stamp > highest {
                highest = stamp;
                found = Some(*from);
            }
        }
        found
    }

    /// The link of the stamp to which the commit of a link raised the clock.
    fn next_link(&self, starts: &[Start], before: &BarredLink) -> Option<BarredLink>
        requires link { IsLink self.now.scenario.now before.now.link }
        requires starts { All (λ s. s.message < length self.now.scenario.now.multicasts) starts.now }
        ensures { IfSome result (λ next. IsLink self.now.scenario.now next.link) }
    {
        let commit = before.link.commit?;
        let group = before.link.group;
        let from = self.highest_stamp(starts, before.bar, commit, group)?;
        let by = self.arrives_by(commit.at, commit.message, group, from);
        Some(self.link(starts, before.bar, commit.message, from, by))
    }

    /// The chain of links by which the stamp of the target at a group may be as great as leads say.
    fn chain(&self, alloc: Global, starts: &[Start], group: usize) -> Result<Vec<Link>, AllocError>
        requires group { group < MOST_GROUPS }
        requires starts { All (λ s. s.message < length self.now.scenario.now.multicasts) starts.now }
        ensures { IfOk result (λ links. All (IsLink self.now.scenario.now) links.items) }
    {
        let target = self.scenario.target_message();
        let by = self.windows.greatest_arrival(target, group);
        let mut next = Some(self.link(starts, target, target, group, by));
        let mut links = Vec::new(alloc);
        for _place in 0..MOST_LINKS {
            let Some(barred) = next else {
                return Ok(links);
            };
            next = self.next_link(starts, &barred);
            links.push(barred.link)?;
        }
        Ok(links)
    }

    /// The first destination of the target at which its stamp is not surely less.
    fn open_group(&self, starts: &[Start]) -> Option<usize>
        ensures { IfSome result (λ group. group < MOST_GROUPS) }
    {
        for group in destinations(self.scenario, self.scenario.target_message()) {
            if !self.is_no_danger(starts, *group) {
                return Some(*group);
            }
        }
        None
    }

    /// Whether the messages of some starts are of the scenario.
    fn are_starts(&self, starts: &[Start]) -> bool
        ensures { IsTrue result → All (λ s. s.message < length self.now.scenario.now.multicasts) starts.now }
    {
        let count = self.scenario.message_count();
        for start in starts {
            if start.message() >= count {
                return false;
            }
        }
        true
    }

    /// The chain for the first destination of the target at which its stamp is not surely less, with the
    /// starts that the last test left in the scratch: that of this setting, if its chain is to be told. No
    /// link where there is no such destination. The error is that memory ran out.
    pub fn links(&self, scratch: &Scratch) -> Result<Vec<Link>, AllocError>
        ensures { IfOk result (λ links. All (IsLink self.now.scenario.now) links.items) }
    {
        let starts = scratch.starts(self.barring);
        if !self.are_starts(starts) {
            return Ok(Vec::new(scratch.alloc));
        }
        match self.open_group(starts) {
            None => Ok(Vec::new(scratch.alloc)),
            Some(group) => self.chain(scratch.alloc, starts, group),
        }
    }
}
