//! What a search asks of a region of an instance in which the target is issued at one tick: bounds and leads count from
//! that.

ghost use Rattle.std.specs.Prelude.{◌≡◌, ◌≤◌, if◌then◌else◌, Some, None, IfOk, IfSome};
ghost use Rattle.convoy_certificate.specs.declared.node.Node.TheVariants.{Lead};
ghost use Rattle.convoy_leads.specs.Openings.{IsOpening, IsShown};
ghost use Rattle.convoy_narrowing.specs.Narrowing.{closes_narrowed, closes_region, narrowed};
ghost use Rattle.convoy_branch.specs.FromIssue.{IsAskedFromIssue, IsLeftFromIssue, IsRaisedFromIssue, least_from_issue};
ghost use Rattle.convoy_branch.specs.Uppers.{IsRaisedByLeads};

use super::asked::{Asked, LeftOpen};
use super::bounds::Bounds;
use convoy_certificate::Node;
use convoy_intervals::Tracked;
use convoy_leads::{LeadTest, Scratch, Shown};
use convoy_narrowing::narrowed;
use convoy_packets::Instance;
use convoy_regions::Branch;
use convoy_scenario::Time;
use convoy_stamps::stamp_bound_of;
use std::alloc::{AllocError, Global};

impl Bounds {
    /// Asks for the leaf that closes a region for a latency in ticks: that of the plain bound, else that of
    /// the stamp bound if it is asked for, and else that of leads, which tell what they leave open where
    /// there is none. The error is that memory ran out.
    pub(crate) fn ask_from_issue<'a>(
        self,
        alloc: Global,
        instance: &'a Instance,
        branch: &Branch,
        latency: u32,
    ) -> Result<Asked<'a>, AllocError>
        requires of_scenario { branch.now.scenario ≡ instance.now }
        ensures { IfOk result (IsAskedFromIssue self instance.now branch.now.region latency) }
    {
        if branch.tracked().bound() <= latency {
            return Ok(Asked::closed(Node::Bound));
        }
        if self == Bounds::Plain {
            return Ok(Asked::nothing());
        }
        if least_bound(alloc, instance, branch.tracked())? <= latency {
            return Ok(Asked::closed(Node::Stamp));
        }
        if self == Bounds::Lead {
            return ask_leads(alloc, instance, branch, latency);
        }
        Ok(Asked::nothing())
    }

    /// What an upper bound of all latencies, in ticks, is raised to where a region is left. The error is that memory
    /// ran out.
    pub(crate) fn raised_from_issue(
        self,
        alloc: Global,
        instance: &Instance,
        branch: &Branch,
        upper: u32,
    ) -> Result<u32, AllocError>
        requires of_scenario { branch.now.scenario ≡ instance.now }
        ensures { IfOk result
            (λ raised. IsRaisedFromIssue self instance.now branch.now.region upper raised) }
    {
        match self {
            Bounds::Plain => Ok(upper.max(branch.tracked().bound())),
            Bounds::Stamp => Ok(upper.max(least_bound(alloc, instance, branch.tracked())?)),
            Bounds::Lead => {
                let bound = least_bound(alloc, instance, branch.tracked())?;
                raised_by_leads(alloc, instance, branch, upper, bound)
            }
        }
    }
}

/// Asks leads whether they close a region for a latency in ticks: over the windows of its box, and where they
/// do not and it has precedences, over its own.
#[tactic(auto, unfolding(convoy_leads::specs::Closing::closes_by_leads, convoy_narrowing::specs::Narrowing::closes_region))]
fn ask_leads<'a>(
    alloc: Global,
    instance: &'a Instance,
    branch: &Branch,
    latency: u32,
) -> Result<Asked<'a>, AllocError>
    requires of_scenario { branch.now.scenario ≡ instance.now }
    ensures leaf { IfOk result (λ asked. asked.leaf
        ≡ (if closes_region instance.now branch.now.region latency then Some (Lead latency) else None)) }
    ensures left { IfOk result
        (λ asked. IfSome asked.left (λ left. IsLeftFromIssue instance.now branch.now.region left.value)) }
{
    let test = LeadTest::of(alloc, instance, branch.delay_box())?;
    let mut scratch = Scratch::new(alloc);
    let shown = test.shows(latency, &mut scratch)?;
    if shown.is_closed() {
        return Ok(Asked::closed(Node::Lead { latency }));
    }
    if branch.before().is_empty() {
        return left_open(alloc, test, scratch, shown, latency);
    }
    ask_narrowed(alloc, instance, branch, latency)
}

/// The same over the windows of the region alone.
fn ask_narrowed<'a>(
    alloc: Global,
    instance: &'a Instance,
    branch: &Branch,
    latency: u32,
) -> Result<Asked<'a>, AllocError>
    requires of_scenario { branch.now.scenario ≡ instance.now }
    ensures leaf { IfOk result (λ asked. asked.leaf
        ≡ (if closes_narrowed instance.now branch.now.region latency then Some (Lead latency) else None)) }
    ensures left { IfOk result
        (λ asked. IfSome asked.left (λ left. IsLeftFromIssue instance.now branch.now.region left.value)) }
{
    let test = narrowed_test(alloc, instance, branch)?;
    let mut scratch = Scratch::new(alloc);
    let shown = test.shows(latency, &mut scratch)?;
    if shown.is_closed() {
        return Ok(Asked::closed(Node::Lead { latency }));
    }
    left_open(alloc, test, scratch, shown, latency)
}

/// The test of the windows of a region. The error is that memory ran out.
fn narrowed_test<'a>(
    alloc: Global,
    instance: &'a Instance,
    branch: &Branch,
) -> Result<LeadTest<'a>, AllocError>
    requires of_scenario { branch.now.scenario ≡ instance.now }
    ensures { IfOk result (λ test. test ≡ record {
      scenario = instance.now;
      windows = narrowed instance.now branch.now.region;
    }) }
{
    let windows = narrowed(alloc, instance, branch.delay_box(), branch.before())?;
    LeadTest::over(alloc, instance, windows)
}

/// What is known where a test, with this scratch, does not close its windows for a latency in ticks, but shows that of
/// them. The error is that memory ran out.
fn left_open<'a>(
    alloc: Global,
    test: LeadTest<'a>,
    mut scratch: Scratch,
    shown: Shown,
    latency: u32,
) -> Result<Asked<'a>, AllocError>
    requires shown { IsShown test.scenario shown }
    ensures leaf { IfOk result (λ asked. asked.leaf ≡ None) }
    ensures left { IfOk result (λ asked. IfSome asked.left (λ left.
        (left.value.test ≡ test.entry) × IfSome left.value.opening (IsOpening test.entry.scenario))) }
{
    let opening = test.opening(shown, latency, &mut scratch)?;
    Ok(Asked {
        leaf: None,
        left: Some(Box::new(
            alloc,
            LeftOpen {
                test,
                scratch,
                opening,
            },
        )?),
    })
}

/// The bound of a box in a search that asks for stamp bounds, in ticks: its stamp bound, or in real
/// time the plain one. The error is that memory ran out.
fn least_bound(alloc: Global, instance: &Instance, branch: &Tracked) -> Result<u32, AllocError>
    requires of_scenario { branch.now.scenario ≡ instance.now }
    ensures { IfOk result (λ bound. bound ≡ least_from_issue instance.now branch.now.delay_box) }
{
    match instance.time() {
        Time::Ticks => stamp_bound_of(alloc, instance, branch),
        Time::Real => Ok(branch.bound()),
    }
}

/// What leads raise an upper bound to, in ticks, where a region is left whose bound is known: the ticks
/// between the upper bound and that are halved until one is left.
#[tactic(auto, unfolding(convoy_narrowing::specs::Narrowing::closes_region))]
fn raised_by_leads(
    alloc: Global,
    instance: &Instance,
    branch: &Branch,
    upper: u32,
    bound: u32,
) -> Result<u32, AllocError>
    requires of_scenario { branch.now.scenario ≡ instance.now }
    requires bound { bound ≡ least_from_issue instance.now branch.now.region.ranges }
    ensures { IfOk result
        (IsRaisedByLeads bound (λ latency. closes_region instance.now branch.now.region latency) upper) }
{
    if bound <= upper {
        return Ok(upper);
    }
    let mut low = upper;
    let mut high = bound;
    let test = narrowed_test(alloc, instance, branch)?;
    let mut scratch = Scratch::new(alloc);
    while low < high {
        let middle = low + (high - low) / 2;
        if test.shows(middle, &mut scratch)?.is_closed() {
            high = middle;
        } else {
            low = middle + 1;
        }
    }
    Ok(high)
}
