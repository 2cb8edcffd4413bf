//! Wishes by which the stamp of the rival at the target's group is low, as gaps between events.

ghost use Rattle.std.specs.Prelude.{◌<◌, length};
ghost use Rattle.convoy_draft.specs.declared.limits.TheConstants.{MOST_GROUPS, MOST_MULTICASTS};

use super::latest::Latest;
use super::moments::Moments;
use super::scene::Scene;
use convoy_scenario::{MOST_GROUPS, MOST_MULTICASTS};
use convoy_sure::destinations;
use std::alloc::AllocError;

impl<'a> Scene<'a> {
    /// Keeps that each other message arrives at the target's group after the rival, where it can.
    pub(crate) fn keep_rival_first(&self, latest: &mut Latest) -> Result<(), AllocError> {
        let (rival, group) = (self.rival(), self.group());
        for other in 0..self.instance.message_count() {
            if other != rival && self.goes_to(other, group) {
                self.keep_order(latest, group, rival, other)?;
            }
        }
        Ok(())
    }

    /// Keeps that what is committed at the target's group before the rival arrives there, at those moments,
    /// arrives at its other groups before all else, where it can; whether any such wish was kept.
    pub(crate) fn keep_low(
        &self,
        latest: &mut Latest,
        moments: &Moments,
    ) -> Result<bool, AllocError> {
        let (rival, group) = (self.rival(), self.group());
        let first = moments.arrival(rival, group);
        let mut some = false;
        for other in 0..self.instance.message_count() {
            if other != rival
                && self.goes_to(other, group)
                && moments.commit(other, group) <= first.saturating_sub(self.commit_gap())
            {
                some |= self.keep_message_low(latest, moments, other)?;
            }
        }
        Ok(some)
    }

    /// Keeps that a message arrives at its groups but the target's before what arrives no later there.
    fn keep_message_low(
        &self,
        latest: &mut Latest,
        moments: &Moments,
        message: usize,
    ) -> Result<bool, AllocError>
        requires { message < length self.now.instance.now.multicasts }
    {
        let mut some = false;
        for group in destinations(self.instance.scenario(), message) {
            if *group != self.group() {
                some |= self.keep_first(latest, moments, message, *group)?;
            }
        }
        Ok(some)
    }

    /// Keeps that a message arrives at a group before what arrives no later there.
    fn keep_first(
        &self,
        latest: &mut Latest,
        moments: &Moments,
        message: usize,
        group: usize,
    ) -> Result<bool, AllocError>
        requires message { message < MOST_MULTICASTS }
        requires group { group < MOST_GROUPS }
    {
        let tick = moments.arrival(message, group);
        let mut some = false;
        for other in 0..self.instance.message_count() {
            if other != message
                && self.goes_to(other, group)
                && moments.arrival(other, group) <= tick
            {
                some |= self.keep_order(latest, group, message, other)?;
            }
        }
        Ok(some)
    }
}
