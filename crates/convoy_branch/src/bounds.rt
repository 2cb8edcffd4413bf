ghost use Rattle.std.specs.Prelude.{◌≡◌, ◌≤◌, IfOk};
ghost use Rattle.convoy_scenario.specs.Widened.{target_wait, widened};
ghost use Rattle.convoy_origin.specs.WidenedRegions.{widened_region};
ghost use Rattle.convoy_branch.specs.Asked.{IsAsked};
ghost use Rattle.convoy_branch.specs.SearchBounds.{most_nodes};
ghost use Rattle.convoy_branch.specs.Uppers.{IsRaised};

use super::asked::Asked;
use convoy_certificate::{MOST_LEADS, MOST_NODES};
use convoy_origin::Origin;
use convoy_origin::widened_laws::widened_region_is_itself;
use convoy_regions::Branch;
use convoy_scenario::widened_laws::widened_is_itself;
use std::alloc::{AllocError, Global};

/// By what a search closes regions (docs/PROTOCOL.md). In real time no stamp bound is asked for, and
/// the plain one counts in its place.
#[derive(Clone, Copy, PartialEq, Eq)]
pub enum Bounds {
    /// By plain bounds alone.
    Plain,
    /// By stamp bounds, each asked for where the plain bound of the region's ranges does not suffice.
    Stamp,
    /// By leads, asked for where the stamp bound of the region's ranges does not suffice.
    Lead,
}

impl Bounds {
    /// How many nodes a search may have so that its certificate can be read whatever they are: by
    /// leads each may be a lead leaf.
    pub fn most_nodes(self) -> usize
        ensures value { result ≡ most_nodes self }
        ensures some { 1 ≤ result }
    {
        match self {
            Bounds::Plain | Bounds::Stamp => MOST_NODES,
            Bounds::Lead => MOST_LEADS,
        }
    }

    /// Asks for the leaf that closes a region for a latency in ticks, counted from the issue of the target whenever that
    /// is: that of the plain bound, else that of the stamp bound if it is asked for, and else that of leads, which tell
    /// what they leave open where there is none. Where the target may wait, the widened region is asked in place of the
    /// region. The error is that memory ran out.
    pub(crate) fn ask<'a>(
        self,
        alloc: Global,
        origin: &'a Origin,
        branch: &Branch,
        latency: u32,
    ) -> Result<Asked<'a>, AllocError>
        requires of_scenario { branch.now.scenario ≡ origin.now }
        ensures { IfOk result (IsAsked self origin.now branch.now.region latency) }
    {
        match origin.moved() {
            None => {
                is_its_own(origin, branch);
                self.ask_from_issue(alloc, origin.instance(), branch, latency)
            }
            Some(moved) => {
                let wide = origin.moved_branch(alloc, moved, branch)?;
                self.ask_from_issue(alloc, moved, &wide, latency)
            }
        }
    }

    /// What an upper bound of all latencies, in ticks, is raised to where a region is left: to the bound
    /// of its ranges if that is greater, or in a search by leads to less, for which these close the region.
    /// Where the target may wait, the widened region is asked in place of the region. The error is that memory ran out.
    pub fn raised(
        self,
        alloc: Global,
        origin: &Origin,
        branch: &Branch,
        upper: u32,
    ) -> Result<u32, AllocError>
        requires of_scenario { branch.now.scenario ≡ origin.now }
        ensures { IfOk result
            (λ raised. IsRaised self origin.now branch.now.region upper raised) }
    {
        match origin.moved() {
            None => {
                is_its_own(origin, branch);
                self.raised_from_issue(alloc, origin.instance(), branch, upper)
            }
            Some(moved) => {
                let wide = origin.moved_branch(alloc, moved, branch)?;
                self.raised_from_issue(alloc, moved, &wide, upper)
            }
        }
    }
}

/// Where the target does not wait, the scenario and its regions are their own widened ones, for the proofs of callers.
pub(crate) fn is_its_own(origin: &Origin, branch: &Branch)
    requires of_scenario { branch.now.scenario ≡ origin.now }
    requires fixed { target_wait origin.now ≡ 0 }
    ensures scenario { widened origin.now ≡ origin.now }
    ensures region { widened_region origin.now branch.now.region ≡ branch.now.region }
{
    widened_is_itself();
    widened_region_is_itself();
    let _instance = origin.instance();
    let _box = branch.delay_box();
}
