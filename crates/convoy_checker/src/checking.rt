ghost use Rattle.std.specs.Prelude.{◌≡◌, ◌&&◌, nat_le, [], ◌∷◌, All, Ok, IfOk, IfSome, OnOk};
ghost use Rattle.convoy_scenario.specs.Memory.{IsUnlessMemory};
ghost use Rattle.convoy_sim.specs.Delivery.{latency_of};
ghost use Rattle.convoy_intervals.specs.Boxes.{IsBox};
ghost use Rattle.convoy_regions.specs.Stages.{IsPrecedence};
ghost use Rattle.convoy_regions.specs.Regions.{IsRegion, Region, can_order, is_decided, root_region, run_of};
ghost use Rattle.convoy_certificate.specs.Certificate.{IsCertificate};
ghost use Rattle.convoy_checker.specs.Checks.{checked, first_fault, in_ticks, node_fault};
ghost use Rattle.convoy_checker.specs.Steps.{allows, checked_within, node_steps, steps_to_fault};
ghost use Rattle.convoy_checker.specs.Looks.{left_after, looked_within};
ghost use Rattle.convoy_checker.specs.Validity.{IsValid};
ghost use Rattle.convoy_sim.specs.Greatest.{IsGreatest};

use super::accepted::Accepted;
use super::open_region::OpenRegion;
use super::refused::Refused;
use super::steps::node_steps;
use super::tree_laws::{checked_is_valid, valid_is_greatest};
use super::walk::Walk;
use convoy_certificate::{Certificate, Node};
use convoy_intervals::DelayBox;
use convoy_origin::{Origin, closes_from_origin, plain_from_origin, stamp_from_origin};
use convoy_packets::Instance;
use convoy_regions::region_laws::halves_are_regions;
use convoy_regions::{Precedence, can_order, is_decided, run_latency};
use convoy_scenario::Time;
use std::alloc::{AllocError, Global};

/// Checks a certificate: that its schedule has the stated latency, and that its nodes are one tree
/// over the root of which every leaf is right (docs/PROTOCOL.md). Then no schedule has a
/// greater latency.
///
/// The bound of each leaf is computed from scratch. Memory grows with the depth of the tree; a leaf
/// gives back what its test takes. A certificate that isn't valid is refused with its first
/// fault, in the order of `Refused`; where memory runs out, `Refused::Memory` is the answer, and says
/// nothing of the certificate. How long it takes is not limited, and a small certificate may take hours:
/// [`check_within`] limits it.
pub fn check(alloc: Global, certificate: &Certificate) -> Result<Accepted, Refused>
    // What is accepted is valid, and has the latency that is answered.
    ensures valid { IfOk result (λ accepted. IsValid certificate.now × (accepted ≡ certificate.now.latency)) }
    // So that latency is the greatest of the scenario.
    ensures greatest { IfOk result (λ accepted. IsGreatest certificate.now.scenario accepted) }
    // What is valid is accepted, unless memory runs out.
    ensures only { IsValid certificate.now
        → IsUnlessMemory Refused.Memory (Ok certificate.now.latency) result }
    // Which fault it is.
    ensures exact { IsUnlessMemory Refused.Memory (checked certificate.now) result }
{
    checked_is_valid();
    valid_is_greatest();
    check_all(alloc, certificate)
}

/// The latency of the certificate, or its first fault.
fn check_all(alloc: Global, certificate: &Certificate) -> Result<Accepted, Refused>
    ensures lawful { IsCertificate certificate.now }
    ensures exact { IsUnlessMemory Refused.Memory (checked certificate.now) result }
{
    match check_up_to(alloc, certificate, None)? {
        Some(accepted) => Ok(accepted),
        None => unreachable!(),
    }
}

/// [`check`], where at most so many steps are taken: none where the certificate takes more, of which
/// nothing is said then (docs/FORMATS.md, "Steps"). Steps are counted from a node and its box before the node
/// is looked at, and so a node that takes too many costs nothing.
pub fn check_within(
    alloc: Global,
    certificate: &Certificate,
    limit: Option<u64>,
) -> Result<Option<Accepted>, Refused>
    // What is accepted is valid, and its latency is the greatest of the scenario.
    ensures valid { IfOk result (λ answer. IfSome answer
        (λ accepted. IsValid certificate.now × (accepted ≡ certificate.now.latency))) }
    ensures greatest { IfOk result (λ answer. IfSome answer (IsGreatest certificate.now.scenario)) }
    // Just what is said without a limit, unless the certificate takes more steps.
    ensures exact { IsUnlessMemory Refused.Memory (checked_within limit certificate.now) result }
{
    checked_is_valid();
    valid_is_greatest();
    check_up_to(alloc, certificate, limit)
}

/// The latency of the certificate, or its first fault; none where that takes more steps than may be taken.
#[tactic(auto, unfolding(crate::specs::Checks::checked, crate::specs::Steps::steps_of))]
fn check_up_to(
    alloc: Global,
    certificate: &Certificate,
    limit: Option<u64>,
) -> Result<Option<Accepted>, Refused>
    ensures lawful { IsCertificate certificate.now }
    ensures exact { IsUnlessMemory Refused.Memory (checked_within limit certificate.now) result }
{
    let instance = certificate.instance();
    let latency = certificate.latency();
    let simulated = convoy_sim::latency(instance, certificate.schedule());
    if simulated != latency {
        return Err(Refused::Latency(simulated));
    }
    let origin = Origin::of(alloc, instance)?;
    let claim = Claim { origin, latency };
    match first_fault(alloc, &claim, certificate.nodes(), limit)? {
        Looked::All(None) => Ok(Some(Accepted::new(latency))),
        Looked::All(Some(fault)) => Err(fault),
        Looked::Short => Ok(None),
    }
}

/// What the nodes of a certificate are to show: that no schedule of the scenario has a latency above
/// this.
#[derive(Drop)]
struct Claim<'a> {
    origin: Origin<'a>,
    latency: u32,
}

/// How far the nodes were looked at.
enum Looked {
    /// Up to the first fault, or if there is none to the end.
    All(Option<Refused>),
    /// Not so far, since that takes more steps than may be taken.
    Short,
}

/// The first fault of the nodes as a tree over the root.
fn first_fault(
    alloc: Global,
    claim: &Claim,
    nodes: &[Node],
    limit: Option<u64>,
) -> Result<Looked, AllocError>
    ensures { let scenario = claim.now.origin in let root = root_region scenario in
        IfOk result (λ looked. looked ≡ looked_within limit
        (steps_to_fault scenario claim.now.latency 0 (root ∷ []) nodes.now)
        (first_fault scenario claim.now.latency 0 (root ∷ []) nodes.now)) }
{
    halves_are_regions();
    let mut walk = Walk::over(alloc, DelayBox::root(alloc, claim.origin.instance())?);
    let mut left = limit;
    for (number, node) in nodes.iter().enumerate() {
        let Some(region) = walk.next_region() else {
            return Ok(Looked::All(Some(Refused::TreeCount)));
        };
        if !spend(alloc, &claim.origin, *node, region, &mut left)? {
            return Ok(Looked::Short);
        }
        let fault = node_fault(alloc, claim, number, *node, region)?;
        if fault.is_some() {
            return Ok(Looked::All(fault));
        }
        walk.pass(alloc, claim.origin.instance(), *node)?;
    }
    Ok(Looked::All(walk.next_region().is_some().then_some(Refused::TreeCount)))
}

/// Takes the steps of a node from those that are left, where they are limited. Answers whether there were
/// enough.
fn spend(
    alloc: Global,
    origin: &Origin,
    node: Node,
    region: &OpenRegion,
    left: &mut Option<u64>,
) -> Result<bool, AllocError>
    requires inside { IsRegion origin.now region.now }
    ensures enough { IfOk result (λ enough. enough
        ≡ allows left.old (node_steps origin.now node region.now)) }
    ensures left { OnOk result (left.new
        ≡ left_after left.old (node_steps origin.now node region.now)) }
{
    let Some(most) = *left else {
        return Ok(true);
    };
    let steps = node_steps(alloc, origin, node, region)?;
    *left = Some(most.saturating_sub(steps));
    Ok(steps <= most)
}

/// The fault of the node of that number over its region.
fn node_fault(
    alloc: Global,
    claim: &Claim,
    number: usize,
    node: Node,
    region: &OpenRegion,
) -> Result<Option<Refused>, AllocError>
    requires inside { IsRegion claim.now.origin region.now }
    ensures { IfOk result (λ fault. fault ≡ node_fault claim.now.origin claim.now.latency number
        node region.now) }
{
    let (origin, latency) = (&claim.origin, claim.latency);
    let instance = origin.instance();
    let (delay_box, before) = (region.delay_box(), region.before());
    let (holds, fault) = match node {
        Node::Split { packet, at } => (
            delay_box.can_split(usize::from(packet), at),
            Refused::Split(number),
        ),
        Node::Order { first, second } => (
            may_order(alloc, instance, region, first, second)?,
            Refused::Split(number),
        ),
        Node::Bound => {
            let bound = plain_from_origin(alloc, origin, delay_box)?;
            (bound <= latency, Refused::BoundLeaf(number, bound))
        }
        Node::Point => (
            is_within(alloc, instance, latency, delay_box, before)?,
            Refused::PointLeaf(number),
        ),
        Node::Stamp => {
            let bound = stamp_from_origin(alloc, origin, delay_box)?;
            (
                in_ticks(instance) && bound <= latency,
                Refused::StampLeaf(number, bound),
            )
        }
        Node::Lead { latency: named } => (
            named <= latency && closes_from_origin(alloc, origin, delay_box, before, named)?,
            Refused::LeadLeaf(number),
        ),
    };
    Ok((!holds).then_some(fault))
}

/// Whether time goes in whole ticks.
fn in_ticks(instance: &Instance) -> bool
    ensures { result ≡ in_ticks instance.now.time }
{
    instance.time() == Time::Ticks
}

/// Whether the region may be split by the order of two stages, by their numbers.
fn may_order(
    alloc: Global,
    instance: &Instance,
    region: &OpenRegion,
    first: u8,
    second: u8,
) -> Result<bool, AllocError>
    requires { IsRegion instance.now region.now }
    ensures { IfOk result (λ can. can ≡ can_order instance.now region.now first second) }
{
    let (first, second) = (usize::from(first), usize::from(second));
    can_order(alloc, instance.scenario(), region.before(), first, second)
}

/// Whether each packet has one delay left in the box, no tie is open there by the precedences, and the latency
/// of the run is at most that.
fn is_within(
    alloc: Global,
    instance: &Instance,
    latency: u32,
    delay_box: &DelayBox,
    before: &[Precedence],
) -> Result<bool, AllocError>
    requires inside { IsBox instance.now delay_box.now }
    requires within { All (IsPrecedence instance.now) before.now }
    ensures { let region : Region = record { ranges = delay_box.now; before = before.now } in
        IfOk result (λ within. within ≡ (is_decided instance.now region
        && nat_le (latency_of instance.now (run_of instance.now region)) latency)) }
{
    if !is_decided(alloc, instance, delay_box, before)? {
        return Ok(false);
    }
    Ok(run_latency(alloc, instance, delay_box, before)? <= latency)
}
