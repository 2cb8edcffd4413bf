//! Wishes as gaps between events: what the box, an open case of it and its chain ask of ticks.

ghost use Rattle.std.specs.Prelude.{◌<◌, length};
ghost use Rattle.convoy_draft.specs.declared.limits.TheConstants.{MOST_GROUPS, MOST_MULTICASTS};
ghost use Rattle.convoy_starts.specs.Links.{IsLink};
ghost use Rattle.convoy_wishes.specs.Wishing.{IsScene};

use super::ends::Keeping;
use super::event::{Event, Gap};
use super::latest::Latest;
use super::scene::Scene;
use convoy_leads::{Commit, Link};
use convoy_scenario::{MOST_GROUPS, MOST_MULTICASTS};
use convoy_sure::destinations;
use std::alloc::AllocError;

impl<'a> Scene<'a> {
    /// Keeps what the box says: each message is issued and arrives in its ranges. Ticks for that are left,
    /// since no box is empty.
    pub(crate) fn keep_box(&self, latest: &mut Latest) -> Result<(), AllocError> {
        for message in 0..self.instance.message_count() {
            self.keep_message(latest, message)?;
        }
        Ok(())
    }

    /// Keeps what the box says of one message.
    fn keep_message(&self, latest: &mut Latest, message: usize) -> Result<(), AllocError>
        requires { message < length self.now.instance.now.multicasts }
    {
        let scenario = self.instance.scenario();
        let (first, last) = self.issue(message);
        for group in destinations(scenario, message) {
            let (issue, arrival) = (Event::issue(message), Event::arrival(message, *group));
            let (least, most) = self.coming(message, *group);
            latest.add(Gap::within(arrival, issue, i64::from(most)))?;
            latest.add(Gap {
                earlier: issue,
                later: arrival,
                ticks: i64::from(least),
            })?;
            latest.add(Gap::from(issue, first))?;
            latest.add(Gap::by(issue, last))?;
        }
        latest.keep()?;
        Ok(())
    }

    /// Keeps what the case wants, where it can: the rival arrives late where its stamp keeps its commit back,
    /// and at the target's group before the target is committed there, or before it arrives where no chain is
    /// wanted.
    pub(crate) fn keep_case(&self, latest: &mut Latest) -> Result<(), AllocError> {
        let (rival, target, group) = (self.rival(), self.target(), self.group());
        let (by, from) = (self.case.rival_by, self.case.target_by);
        let late = self.case.windows.least_arrival(rival, by);
        latest.add(Gap::from(Event::arrival(rival, by), i64::from(late)))?;
        latest.keep()?;
        let (_, slowest) = self.proposing(target, from, group);
        let arrival = Event::arrival(rival, group);
        latest.add(Gap::within(arrival, Event::arrival(target, from), i64::from(slowest)))?;
        latest.keep()?;
        if self.may_come_first() {
            self.keep_order(latest, group, rival, target)?;
        }
        Ok(())
    }

    /// Keeps that one message arrives at a group before another one, where it can; whether it is kept.
    pub(crate) fn keep_order(
        &self,
        latest: &mut Latest,
        group: usize,
        first: usize,
        second: usize,
    ) -> Result<bool, AllocError>
        requires group { group < MOST_GROUPS }
        requires first { first < MOST_MULTICASTS }
        requires second { second < MOST_MULTICASTS }
    {
        latest.add(Gap {
            earlier: Event::arrival(first, group),
            later: Event::arrival(second, group),
            ticks: self.arrival_gap(first, second),
        })?;
        latest.keep()
    }

    /// Keeps what the chain wants, where it can, in such an order.
    pub(crate) fn keep_chain(&self, latest: &mut Latest, keeping: Keeping) -> Result<(), AllocError>
        requires { IsScene self.now }
    {
        match keeping {
            Keeping::LinkByLink => self.keep_links(latest),
            Keeping::CommitsFirst => {
                self.keep_commits(latest)?;
                self.keep_counted(latest)
            }
            Keeping::LastLinkFirst => {
                self.keep_commits(latest)?;
                self.keep_counted_back(latest)
            }
        }
    }

    /// Keeps each link whole.
    fn keep_links(&self, latest: &mut Latest) -> Result<(), AllocError>
        requires { IsScene self.now }
    {
        for link in self.links {
            self.keep_commit(latest, link)?;
            self.keep_others(latest, link)?;
        }
        Ok(())
    }

    /// Keeps the commit of each link.
    fn keep_commits(&self, latest: &mut Latest) -> Result<(), AllocError>
        requires { IsScene self.now }
    {
        for link in self.links {
            self.keep_commit(latest, link)?;
        }
        Ok(())
    }

    /// Keeps the messages that each link counts.
    fn keep_counted(&self, latest: &mut Latest) -> Result<(), AllocError>
        requires { IsScene self.now }
    {
        for link in self.links {
            self.keep_others(latest, link)?;
        }
        Ok(())
    }

    /// The same, from the last link back.
    fn keep_counted_back(&self, latest: &mut Latest) -> Result<(), AllocError>
        requires { IsScene self.now }
    {
        for link in self.links.iter().rev() {
            self.keep_others(latest, link)?;
        }
        Ok(())
    }

    /// Keeps that the message of a link arrives after its commit.
    fn keep_commit(&self, latest: &mut Latest, link: &Link) -> Result<(), AllocError>
        requires { IsLink self.now.instance.now link.now }
    {
        let _count = self.instance.message_count();
        if let Some(commit) = link.commit {
            self.add_commit(latest, commit, link.message, link.group)?;
            latest.keep()?;
        }
        Ok(())
    }

    /// Keeps that each message that a link counts arrives before that of the link, and after its commit.
    fn keep_others(&self, latest: &mut Latest, link: &Link) -> Result<(), AllocError>
        requires { IsLink self.now.instance.now link.now }
    {
        let _count = self.instance.message_count();
        for other in link.others.numbers() {
            latest.add(Gap {
                earlier: Event::arrival(*other, link.group),
                later: Event::arrival(link.message, link.group),
                ticks: self.arrival_gap(*other, link.message),
            })?;
            if let Some(commit) = link.commit {
                self.add_commit(latest, commit, *other, link.group)?;
            }
            latest.keep()?;
        }
        Ok(())
    }

    /// Adds that a message arrives at a group after a commit there: after each proposal for that has come.
    fn add_commit(
        &self,
        latest: &mut Latest,
        commit: Commit,
        message: usize,
        group: usize,
    ) -> Result<(), AllocError>
        requires commit { commit.message < length self.now.instance.now.multicasts }
        requires message { message < MOST_MULTICASTS }
        requires group { group < MOST_GROUPS }
    {
        for from in destinations(self.instance.scenario(), commit.message) {
            let (quickest, _) = self.proposing(commit.message, *from, group);
            latest.add(Gap {
                earlier: Event::arrival(commit.message, *from),
                later: Event::arrival(message, group),
                ticks: self.commit_gap().saturating_add(i64::from(quickest)),
            })?;
        }
        Ok(())
    }
}
