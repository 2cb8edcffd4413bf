ghost use Rattle.std.specs.Prelude.{◌≡◌, ◌↔◌, ℕ, length, nat_le, if◌then◌else◌};
ghost use Rattle.std.specs.Prelude.{IfErr, IfOk, IfSome, IsNone, IsTrue};
ghost use Rattle.convoy_sim.specs.Delivery.{latency_of};
ghost use Rattle.convoy_sim.specs.Record.{attained_by};
ghost use Rattle.convoy_intervals.specs.Boxes.{CanSplit, IsPoint};
ghost use Rattle.convoy_draft.specs.declared.time.Time.TheVariants.{Real};
ghost use Rattle.convoy_regions.specs.Regions.{can_order, run_of};
ghost use Rattle.convoy_branch.specs.declared.bounds.Bounds.{Bounds};
ghost use Rattle.convoy_branch.specs.declared.bounds.Bounds.TheVariants.{Lead};
ghost use Rattle.convoy_branch.specs.Asked.{IsLeftOpen};
ghost use Rattle.convoy_branch.specs.Steps.{IsBetter, IsStep, IsTriedIf, IsTurn, StaysOpen, known_after};
ghost use Rattle.convoy_branch.specs.Looks.{IsLook, IsLookAtRun};

use super::asked::{Asked, LeftOpen};
use super::bounds::{Bounds, is_its_own};
use super::ordering::order_to_split;
use super::placing::place_by_leads;
use super::splits::Splits;
use super::told_back::wish_told_back;
use convoy_certificate::Node;
use convoy_intervals::DelayBox;
use convoy_intervals::box_laws::{tests_decide, upper_keeps_greatest};
use convoy_origin::Origin;
use convoy_origin::from_origin_laws::stamp_at_most_plain_from_origin;
use convoy_packets::{Instance, PacketTable};
use convoy_regions::Branch;
use convoy_regions::region_laws::stages_are_few;
use convoy_scenario::Time;
use convoy_sim::Record;
use convoy_wishes::wish;
use std::alloc::{AllocError, Global};

/// What a step over a region gave.
#[derive(Drop)]
pub struct Step {
    /// A record of a greater latency than was seen, if the run of the region has one, or in a search by
    /// leads a run that does what keeps the region open.
    pub found: Option<Record>,
    /// What becomes of the region.
    pub turn: Turn,
}

/// What becomes of a region, for which a ticket is spent.
#[derive(Drop)]
pub enum Turn {
    /// No member has a greater latency than is known: the leaf that says why, never a split.
    Closed(Node),
    /// The region is split by that node, at a packet or by an order of two moments: the halves in the order of
    /// the tree. Where the second is `tried`, its run is known to have no greater latency: by a delay it is that
    /// of the region.
    Halves {
        split: Node,
        first: Branch,
        second: Branch,
        tried: bool,
    },
}

/// Takes up one region of a search, where the best record has the latency `seen`, in ticks. The caller
/// says by `tried` that the region's run is known to have no greater one.
///
/// The region is closed for `seen` if a bound of its ranges is at most that: the plain one, or else, where the
/// search asks for it, the stamp bound; or else, where it goes by leads, if these close it. Else its run is
/// simulated, unless it was tried, and a latency above `seen` is
/// found; by leads, wish runs of the case that they leave open are simulated too. Then the region is closed for
/// what was found, or as a point where no tie of it is open, and else is split: at a packet, or in real time by the
/// order of two moments (docs/PROTOCOL.md). Where memory runs out the region comes back as it was.
pub fn step_branch(
    alloc: Global,
    origin: &Origin,
    branch: Branch,
    tried: bool,
    seen: u32,
    bounds: Bounds,
    splits: Splits,
) -> Result<Step, (Branch, AllocError)>
    requires of_scenario { branch.scenario ≡ origin.now }
    requires known { IsTriedIf origin.now branch.region tried seen }
    ensures value { IfOk result (λ step. IsStep bounds origin.now branch.region seen step) }
    ensures back { IfErr result (λ refused. refused.0 ≡ branch) }
{
    stamp_at_most_plain_from_origin();
    let look = match look_at(alloc, origin, &branch, tried, seen, bounds) {
        Ok(look) => look,
        Err(error) => return Err((branch, error)),
    };
    let Look { found, asked } = look;
    let Asked { leaf, left } = asked;
    let turn = match leaf {
        Some(leaf) => Turn::Closed(leaf),
        None => {
            let known = known_after(&found, seen);
            open_turn(alloc, origin, branch, known, splits, left)?
        }
    };
    Ok(Step { found, turn })
}

/// What a look at a region shows.
#[derive(Drop)]
pub(crate) struct Look<'a> {
    /// A record of a greater latency than was seen.
    pub found: Option<Record>,
    /// What was asked of the region for the latency that is known then.
    pub asked: Asked<'a>,
}

/// Asks whether the region is closed for the latency seen, in ticks, then for that of its run if it
/// is greater, and then for that of a wish run.
fn look_at<'a>(
    alloc: Global,
    origin: &'a Origin,
    branch: &Branch,
    tried: bool,
    seen: u32,
    bounds: Bounds,
) -> Result<Look<'a>, AllocError>
    requires of_scenario { branch.now.scenario ≡ origin.now }
    requires known { IsTriedIf origin.now branch.now.region tried seen }
    ensures value { IfOk result (λ look. IsLook bounds origin.now branch.now.region seen look) }
{
    let look = look_at_run(alloc, origin, branch, tried, seen, bounds)?;
    match bounds {
        Bounds::Lead => look_by_wishes(alloc, origin, branch, seen, look),
        Bounds::Plain | Bounds::Stamp => Ok(look),
    }
}

/// What a search by leads sees of a region at whose run it has looked: where it is open, wish runs are
/// simulated, and where one of these has a greater latency it asks for that.
fn look_by_wishes<'a>(
    alloc: Global,
    origin: &'a Origin,
    branch: &Branch,
    seen: u32,
    look: Look<'a>,
) -> Result<Look<'a>, AllocError>
    requires of_scenario { branch.now.scenario ≡ origin.now }
    requires look { IsLookAtRun Lead origin.now branch.now.region seen look }
    ensures { IfOk result (λ look. IsLook Lead origin.now branch.now.region seen look) }
{
    stamp_at_most_plain_from_origin();
    if look.asked.leaf.is_some() {
        return Ok(look);
    }
    let known = known_after(&look.found, seen);
    match wished(alloc, origin, branch, &look.asked, known)? {
        None => Ok(look),
        Some(found) => {
            let asked = Bounds::Lead.ask(alloc, origin, branch, found.latency())?;
            Ok(Look {
                found: Some(found),
                asked,
            })
        }
    }
}

/// The record of a wish run of what leads leave open of a region, if its latency is above the one known, in ticks.
/// Where the target may wait, they are runs of the widened box, told back.
pub(crate) fn wished(
    alloc: Global,
    origin: &Origin,
    branch: &Branch,
    asked: &Asked,
    known: u32,
) -> Result<Option<Record>, AllocError>
    requires of_scenario { branch.now.scenario ≡ origin.now }
    requires left { IfSome asked.now.left (λ left. IsLeftOpen origin.now branch.now.region left.value) }
    ensures { IfOk result (λ found. IfSome found (IsBetter origin.now known)) }
{
    let Some(left) = &asked.left else {
        return Ok(None);
    };
    let Some(opening) = &left.opening else {
        return Ok(None);
    };
    let links = left.test.barred_links(&opening.case, &left.scratch)?;
    let delay_box = branch.delay_box();
    match origin.moved() {
        None => {
            is_its_own(origin, branch);
            wish(
                alloc,
                origin.instance(),
                delay_box,
                &opening.case,
                &links,
                known,
            )
        }
        Some(moved) => {
            wish_told_back(
                alloc,
                origin,
                moved,
                delay_box,
                &opening.case,
                &links,
                known,
            )
        }
    }
}

/// Asks whether the region is closed for the latency seen, in ticks, then for that of its run, and then whether
/// it is closed for that if it is greater.
fn look_at_run<'a>(
    alloc: Global,
    origin: &'a Origin,
    branch: &Branch,
    tried: bool,
    seen: u32,
    bounds: Bounds,
) -> Result<Look<'a>, AllocError>
    requires of_scenario { branch.now.scenario ≡ origin.now }
    requires known { IsTriedIf origin.now branch.now.region tried seen }
    ensures value { IfOk result
        (λ look. IsLookAtRun bounds origin.now branch.now.region seen look) }
{
    stamp_at_most_plain_from_origin();
    let asked = bounds.ask(alloc, origin, branch, seen)?;
    if asked.leaf.is_some() {
        return Ok(Look { found: None, asked });
    }
    match try_run(alloc, origin.instance(), branch, tried, seen)? {
        None => Ok(Look { found: None, asked }),
        Some(found) => {
            let latency = found.latency();
            let asked = bounds.ask(alloc, origin, branch, latency)?;
            Ok(Look {
                found: Some(found),
                asked,
            })
        }
    }
}

/// The record of the run of a region, if its latency is above `seen`, in ticks. This is
/// the one place where a step asks for a latency, and it does not where the run was tried.
fn try_run(
    alloc: Global,
    instance: &Instance,
    branch: &Branch,
    tried: bool,
    seen: u32,
) -> Result<Option<Record>, AllocError>
    requires of_scenario { branch.now.scenario ≡ instance.now }
    requires known { IsTriedIf instance.now branch.now.region tried seen }
    ensures { let schedule = run_of instance.now branch.now.region in IfOk result (λ found. found
        ≡ (if nat_le (latency_of instance.now schedule) seen
        then None else Some (attained_by instance.now schedule))) }
{
    if tried || branch.run_latency(alloc, instance)? <= seen {
        return Ok(None);
    }
    let schedule = branch.run(alloc, instance)?;
    Ok(Some(Record::of(instance, schedule)))
}

/// The greatest latency that is known after a look, where `seen` was known before it, in ticks.
fn known_after(found: &Option<Record>, seen: u32) -> u32
    ensures { result ≡ known_after seen found.now }
{
    match found {
        None => seen,
        Some(found) => found.latency(),
    }
}

/// What becomes of a region that no bound closes, nor leads, for the latency that is known, in ticks: its
/// halves, where it can be split. Where memory runs out the region comes back as it was.
fn open_turn(
    alloc: Global,
    origin: &Origin,
    branch: Branch,
    latency: u32,
    splits: Splits,
    left: Option<Box<LeftOpen>>,
) -> Result<Turn, (Branch, AllocError)>
    requires of_scenario { branch.scenario ≡ origin.now }
    requires left { IfSome left (λ left. IsLeftOpen origin.now branch.region left.value) }
    ensures value { (by : Bounds) (known : ℕ) → StaysOpen by origin.now branch.region known
        → IfOk result (λ turn. IsTurn by origin.now branch.region known turn) }
    ensures back { IfErr result (λ refused. refused.0 ≡ branch) }
{
    match (origin.instance().time(), splits) {
        (Time::Real, Splits::Orders) => order_turn(alloc, origin, branch, latency, left),
        _ => packet_turn(alloc, origin, branch, latency, left),
    }
}

/// The same in real time, where splits by orders that leads leave open and splits at packets take turns.
fn order_turn(
    alloc: Global,
    origin: &Origin,
    branch: Branch,
    latency: u32,
    left: Option<Box<LeftOpen>>,
) -> Result<Turn, (Branch, AllocError)>
    requires of_scenario { branch.scenario ≡ origin.now }
    requires real { origin.now.time ≡ Real }
    requires left { IfSome left (λ left. IsLeftOpen origin.now branch.region left.value) }
    ensures value { (by : Bounds) (known : ℕ) → StaysOpen by origin.now branch.region known
        → IfOk result (λ turn. IsTurn by origin.now branch.region known turn) }
    ensures back { IfErr result (λ refused. refused.0 ≡ branch) }
{
    let instance = origin.instance();
    match order_to_split(alloc, instance, &branch, &left) {
        Err(error) => Err((branch, error)),
        Ok(None) => packet_turn(alloc, origin, branch, latency, left),
        Ok(Some(order)) => ordered_turn(alloc, instance, branch, order.0, order.1),
    }
}

/// What becomes of such a region where it is split at a packet, if one may take several delays.
fn packet_turn(
    alloc: Global,
    origin: &Origin,
    branch: Branch,
    latency: u32,
    left: Option<Box<LeftOpen>>,
) -> Result<Turn, (Branch, AllocError)>
    requires of_scenario { branch.scenario ≡ origin.now }
    requires left { IfSome left (λ left. IsLeftOpen origin.now branch.region left.value) }
    ensures value { (by : Bounds) (known : ℕ) → StaysOpen by origin.now branch.region known
        → IfOk result (λ turn. IsTurn by origin.now branch.region known turn) }
    ensures back { IfErr result (λ refused. refused.0 ≡ branch) }
{
    upper_keeps_greatest();
    let rival_first = !branch.before().is_empty();
    let place = match place_to_split(alloc, origin, &branch, latency, left, rival_first) {
        Ok(place) => place,
        Err(error) => return Err((branch, error)),
    };
    match place {
        None => point_turn(alloc, origin.instance(), branch),
        Some((packet, at)) => {
            let (first, second) = branch.halves(origin.instance(), usize::from(packet), at)?;
            Ok(Turn::Halves {
                split: Node::Split { packet, at },
                first,
                second,
                tried: true,
            })
        }
    }
}

/// What becomes of such a region in which each packet has one delay left: in whole ticks no tie is open, and it
/// is closed as a point, since its run was tried. Where memory runs out the region comes back as it was.
fn point_turn(
    alloc: Global,
    instance: &Instance,
    branch: Branch,
) -> Result<Turn, (Branch, AllocError)>
    requires of_scenario { branch.scenario ≡ instance.now }
    requires point { IsPoint branch.region.ranges }
    ensures value { (bounds : Bounds) (known : ℕ) → StaysOpen bounds instance.now branch.region known
        → IfOk result (λ turn. IsTurn bounds instance.now branch.region known turn) }
    ensures back { IfErr result (λ refused. refused.0 ≡ branch) }
{
    tests_decide();
    match instance.time() {
        Time::Ticks => Ok(Turn::Closed(Node::Point)),
        Time::Real => tied_turn(alloc, instance, branch),
    }
}

/// The same in real time: it is closed as a point where no tie is open, and else split by the order of an open
/// tie.
#[tactic(auto, using(crate::proofs::OpenTurns::decided_without_ties))]
fn tied_turn(
    alloc: Global,
    instance: &Instance,
    branch: Branch,
) -> Result<Turn, (Branch, AllocError)>
    requires of_scenario { branch.scenario ≡ instance.now }
    requires real { instance.now.time ≡ Real }
    requires point { IsPoint branch.region.ranges }
    ensures value { (bounds : Bounds) (known : ℕ) → StaysOpen bounds instance.now branch.region known
        → IfOk result (λ turn. IsTurn bounds instance.now branch.region known turn) }
    ensures back { IfErr result (λ refused. refused.0 ≡ branch) }
{
    tests_decide();
    match branch.open_tie(alloc, instance) {
        Err(error) => Err((branch, error)),
        Ok(None) => Ok(Turn::Closed(Node::Point)),
        Ok(Some((first, second))) => ordered_turn(alloc, instance, branch, first, second),
    }
}

/// The halves of a region by the order of two moments, by their numbers.
fn ordered_turn(
    alloc: Global,
    instance: &Instance,
    branch: Branch,
    first: usize,
    second: usize,
) -> Result<Turn, (Branch, AllocError)>
    requires of_scenario { branch.scenario ≡ instance.now }
    requires real { instance.now.time ≡ Real }
    requires can_order { IsTrue (can_order instance.now branch.region first second) }
    ensures value { (bounds : Bounds) (known : ℕ) → StaysOpen bounds instance.now branch.region known
        → IfOk result (λ turn. IsTurn bounds instance.now branch.region known turn) }
    ensures back { IfErr result (λ refused. refused.0 ≡ branch) }
{
    stages_are_few();
    let split = Node::Order {
        first: first as u8,
        second: second as u8,
    };
    let halves = branch.orders(alloc, instance, first, second)?;
    Ok(Turn::Halves {
        split,
        first: halves.0,
        second: halves.1,
        tried: false,
    })
}

/// Where to split the box of a region that is not closed for the latency that is known, in ticks: by what leads
/// leave open of it, where they were asked, if the chain that keeps it open says so, and else in the middle of
/// the widest range. None where each packet has one delay left. Where the rival is to come first, so that it has
/// a low stamp, the place speaks of that, too. The error is that memory ran out.
pub(crate) fn place_to_split(
    alloc: Global,
    origin: &Origin,
    branch: &Branch,
    latency: u32,
    left: Option<Box<LeftOpen>>,
    rival_first: bool,
) -> Result<Option<(u16, u16)>, AllocError>
    requires of_scenario { branch.now.scenario ≡ origin.now }
    requires left { IfSome left (λ left. IsLeftOpen origin.now branch.now.region left.value) }
    ensures point { IfOk result (λ found. IsNone found ↔ IsPoint branch.now.region.ranges) }
    ensures part { IfOk result
        (λ found. IfSome found (λ place. CanSplit branch.now.region.ranges place.0 place.1)) }
{
    let delay_box = branch.delay_box();
    if let Some(left) = left
        && let Some(opening) = &left.opening
    {
        let place = place_by_leads(alloc, origin, delay_box, opening, latency, rival_first)?;
        if place.is_some() {
            return Ok(place);
        }
    }
    Ok(middle_of_widest(origin.instance().table(), delay_box))
}

/// The packet of the widest range of a box, the first where several are as wide, and the middle of its
/// range in ticks, rounded down. None where each packet has one delay left.
fn middle_of_widest(table: &PacketTable, branch: &DelayBox) -> Option<(u16, u16)>
    requires one_each { length branch.now ≡ length table.now.ranges }
    ensures point { IsNone result ↔ IsPoint branch.now }
    ensures part { IfSome result (λ place. CanSplit branch.now place.0 place.1) }
{
    let mut widest = 0;
    let mut width = 0;
    for packet in 0..table.len() {
        let (least, most) = branch.range(packet);
        if most - least > width {
            widest = packet;
            width = most - least;
        }
    }
    if width == 0 {
        return None;
    }
    let (least, _) = branch.range(widest);
    Some((widest as u16, least + width / 2))
}
