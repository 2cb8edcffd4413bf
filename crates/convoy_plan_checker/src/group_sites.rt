//! Sites of groups, some of which are not known.

ghost use Rattle.std.specs.Prelude.{◌≡◌, ◌==◌, ◌++◌, ◌∷◌, [], length, slice_set, Some, IfOk, IfSome, OnOk};
ghost use Rattle.std.specs.List.{slice_get};
ghost use Rattle.convoy_plan_checker.specs.Sites.{is_left, is_placed, no_sites, placement_of, sites_below};

use convoy_plan_certificate::Branch;
use convoy_plans::Plan;
use std::alloc::{AllocError, Global};
use std::marker::Model;

/// The site of each group, where it is known.
#[derive(Drop)]
pub(crate) struct GroupSites {
    items: Vec<Option<usize>>,
}

impl Model for GroupSites {
    ghost use Rattle.convoy_plan_checker.specs.Sites.{Sites};

    ghost Value = { Sites };

    ghost view = { λ s. s.items.items };
}

impl GroupSites {
    /// No group has a site.
    pub(crate) fn none(alloc: Global, plan: &Plan) -> Result<GroupSites, AllocError>
        ensures { IfOk result (λ sites. sites ≡ no_sites plan.now) }
    {
        let items = vec![in alloc; None; plan.group_count()]?;
        Ok(GroupSites { items })
    }

    /// The same with a site of one more group; a group that is not there has none.
    fn with(&self, alloc: Global, group: usize, site: usize) -> Result<GroupSites, AllocError>
        ensures { IfOk result (λ more. more ≡ slice_set self.now group (Some site)) }
    {
        let mut items = Vec::from_slice(alloc, &self.items)?;
        if group >= items.len() {
            return Ok(GroupSites { items });
        }
        items[group] = Some(site);
        Ok(GroupSites { items })
    }

    /// The sites.
    pub(crate) fn as_slice(&self) -> &[Option<usize>]
        ensures { result.now ≡ self.now }
    {
        self.items.as_slice()
    }

    /// Whether it is a group that has no site yet.
    pub(crate) fn is_left(&self, group: usize) -> bool
        ensures { result ≡ is_left self.now group }
    {
        match self.items.get(group) {
            Some(site) => site.is_none(),
            None => false,
        }
    }

    /// Whether each group has a site.
    pub(crate) fn is_placed(&self) -> bool
        ensures { result ≡ is_placed self.now }
    {
        self.items.iter().all(|site| site.is_some())
    }

    /// The sites of the groups, where each has one.
    pub(crate) fn placement(&self, alloc: Global) -> Result<Vec<usize>, AllocError>
        ensures { IfOk result (λ placement. placement.items ≡ placement_of self.now) }
    {
        self.items
            .iter()
            .map(|site| site.unwrap_or(0))
            .collect(alloc)
    }
}

/// Sites over which no node has stood yet, the next ones last; contracts see the next ones first.
#[derive(Drop)]
pub(crate) struct OpenSites {
    items: Vec<GroupSites>,
}

impl Model for OpenSites {
    ghost use Rattle.std.specs.Prelude.{List, reverse};
    ghost use Rattle.convoy_plan_checker.specs.Sites.{Sites};

    ghost Value = { List Sites };

    ghost view = { λ s. reverse s.items.items };
}

impl OpenSites {
    /// Some sites alone.
    pub(crate) fn over(alloc: Global, sites: GroupSites) -> Result<OpenSites, AllocError>
        ensures { IfOk result (λ left. left ≡ sites ∷ []) }
    {
        let mut left = OpenSites {
            items: Vec::new(alloc),
        };
        left.push(sites)?;
        Ok(left)
    }

    /// The next sites, which are taken out; none where there are no more.
    pub(crate) fn next(&mut self) -> Option<GroupSites>
        ensures value { result ≡ slice_get self.old 0 }
        ensures some { IfSome result (λ sites. self.old ≡ sites ∷ self.new) }
    {
        self.items.pop()
    }

    /// Whether there are none.
    pub(crate) fn is_empty(&self) -> bool
        ensures { result ≡ (length self.now == 0) }
    {
        self.items.is_empty()
    }

    /// Puts the sites below a node that stands over some in front.
    pub(crate) fn push_below(
        &mut self,
        alloc: Global,
        plan: &Plan,
        node: &Branch,
        sites: &GroupSites,
    ) -> Result<(), AllocError>
        ensures { OnOk result (self.new ≡ sites_below plan.now node.now sites.now ++ self.old) }
    {
        match node {
            Branch::Split(group) => self.push_split(alloc, plan, *group, sites),
            Branch::Apart(..) | Branch::Commit(_) | Branch::NoScenario | Branch::Late(_) => Ok(()),
        }
    }

    /// Puts the sites with each of those of one more group in front.
    fn push_split(
        &mut self,
        alloc: Global,
        plan: &Plan,
        group: usize,
        sites: &GroupSites,
    ) -> Result<(), AllocError>
        ensures { OnOk result (self.new ≡ sites_below plan.now (Branch.Split group) sites.now ++ self.old) }
    {
        let homes = plan.sites_of(group);
        let count = homes.len();
        for done in 0..count {
            let site = homes[count - 1 - done];
            self.push(sites.with(alloc, group, site)?)?;
        }
        Ok(())
    }

    /// Puts some sites in front.
    fn push(&mut self, sites: GroupSites) -> Result<(), AllocError>
        ensures { OnOk result (self.new ≡ sites ∷ self.old) }
    {
        Ok(self.items.push(sites)?)
    }
}
