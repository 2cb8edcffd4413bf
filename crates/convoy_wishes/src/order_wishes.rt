//! Wishes of order: which of two moments that may be in one tick is to be first. Only in real time are ties free.

ghost use Rattle.std.specs.Prelude.{◌<◌, length};
ghost use Rattle.convoy_draft.specs.declared.limits.TheConstants.{MOST_GROUPS, MOST_MULTICASTS};
ghost use Rattle.convoy_starts.specs.Links.{IsLink};
ghost use Rattle.convoy_wishes.specs.Wishing.{IsScene};

use super::moments::Moments;
use super::scene::Scene;
use super::ties::Moment;
use convoy_leads::Link;
use convoy_packets::{PLACES, place};
use convoy_scenario::{MOST_GROUPS, MOST_MULTICASTS, Scenario};
use convoy_sure::destinations;
use std::alloc::{AllocError, Global};

/// That of two moments at a group the first is to be before the second, if they are in one tick.
#[derive(Clone, Copy)]
pub(crate) struct Before {
    pub group: usize,
    pub first: Moment,
    pub second: Moment,
}

impl<'a> Scene<'a> {
    /// The wishes of order of the case and its chain, what weighs most first.
    pub(crate) fn orders(&self, alloc: Global) -> Result<Vec<Before>, AllocError>
        requires { IsScene self.now }
    {
        let (rival, target, group) = (self.rival(), self.target(), self.group());
        let mut wishes = Vec::new(alloc);
        wishes.push(Before {
            group,
            first: Moment::arrival(rival),
            second: Moment::commit(target),
        })?;
        if self.may_come_first() {
            wishes.push(Before {
                group,
                first: Moment::arrival(rival),
                second: Moment::arrival(target),
            })?;
        }
        for link in self.links {
            order_link(self.instance.scenario(), &mut wishes, link)?;
        }
        Ok(wishes)
    }

    /// Adds the wishes by which the stamp of the rival at the target's group is low: it arrives there first
    /// of its tick, and so do at their other groups all messages that are committed there before, and so on.
    pub(crate) fn order_low(
        &self,
        alloc: Global,
        wishes: &mut Vec<Before>,
        moments: &Moments,
    ) -> Result<(), AllocError> {
        let mut seen = [false; PLACES];
        let mut low = Vec::new(alloc);
        let (rival, group) = (self.rival(), self.group());
        seen[place(rival, group)] = true;
        low.push((rival, group))?;
        for at in 0..PLACES {
            let Some((message, group)) = low.get(at).copied() else {
                break;
            };
            self.order_first(wishes, moments, message, group)?;
            self.follow(&mut low, &mut seen, moments, message, group)?;
        }
        Ok(())
    }

    /// Adds that a message arrives at a group before all else there in that tick.
    fn order_first(
        &self,
        wishes: &mut Vec<Before>,
        moments: &Moments,
        message: usize,
        group: usize,
    ) -> Result<(), AllocError> {
        if message >= MOST_MULTICASTS || group >= MOST_GROUPS {
            return Ok(());
        }
        let tick = moments.arrival(message, group);
        for other in 0..self.instance.message_count() {
            if other != message && self.goes_to(other, group) {
                let first = Moment::arrival(message);
                if moments.arrival(other, group) == tick {
                    let second = Moment::arrival(other);
                    wishes.push(Before {
                        group,
                        first,
                        second,
                    })?;
                }
                if moments.commit(other, group) == tick {
                    let second = Moment::commit(other);
                    wishes.push(Before {
                        group,
                        first,
                        second,
                    })?;
                }
            }
        }
        Ok(())
    }

    /// Adds to what is to be low what is committed at a group in a tick before the arrival of a message: at
    /// its other groups.
    fn follow(
        &self,
        low: &mut Vec<(usize, usize)>,
        seen: &mut [bool; PLACES],
        moments: &Moments,
        message: usize,
        group: usize,
    ) -> Result<(), AllocError> {
        if message >= MOST_MULTICASTS || group >= MOST_GROUPS {
            return Ok(());
        }
        let tick = moments.arrival(message, group);
        for other in 0..self.instance.message_count() {
            if self.goes_to(other, group) && moments.commit(other, group) < tick {
                self.follow_message(low, seen, other, group)?;
            }
        }
        Ok(())
    }

    /// Adds a message at its groups but one to what is to be low.
    fn follow_message(
        &self,
        low: &mut Vec<(usize, usize)>,
        seen: &mut [bool; PLACES],
        message: usize,
        group: usize,
    ) -> Result<(), AllocError>
        requires { message < length self.now.instance.now.multicasts }
    {
        for to in destinations(self.instance.scenario(), message) {
            let at = place(message, *to);
            if *to != group && !seen[at] {
                seen[at] = true;
                low.push((message, *to))?;
            }
        }
        Ok(())
    }

    /// Whether a message goes to a group.
    pub(crate) fn goes_to(&self, message: usize, group: usize) -> bool
        requires { message < length self.now.instance.now.multicasts }
    {
        self.instance.destinations(message).contains(&group)
    }
}

/// Adds the wishes of a link: its commit, then each message that it counts, then its own message.
fn order_link(scenario: &Scenario, wishes: &mut Vec<Before>, link: &Link) -> Result<(), AllocError>
    requires { IsLink scenario.now link.now }
{
    let _count = scenario.message_count();
    let (group, second) = (link.group, Moment::arrival(link.message));
    if let Some(commit) = link.commit {
        let first = Moment::commit(commit.message);
        wishes.push(Before {
            group,
            first,
            second,
        })?;
    }
    for other in link.others.numbers() {
        let other = Moment::arrival(*other);
        wishes.push(Before {
            group,
            first: other,
            second,
        })?;
        if let Some(commit) = link.commit {
            let first = Moment::commit(commit.message);
            wishes.push(Before {
                group,
                first,
                second: other,
            })?;
        }
    }
    Ok(())
}
