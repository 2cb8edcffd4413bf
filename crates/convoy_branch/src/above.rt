//! From above: runs are sought for latencies near the least for which leads close the root box, where few
//! cases are open, and each that is open tells what its run has to do.

ghost use Rattle.std.specs.Prelude.{◌≡◌, ◌≤◌, All, IfOk, IfSome, OnOk};
ghost use Rattle.convoy_branch.specs.Aims.{HasRisen, IsAbove};
ghost use Rattle.convoy_branch.specs.Asked.{IsLeftOpen};

use super::asked::LeftOpen;
use super::bounds::Bounds;
use super::gate::Gate;
use super::limit::Limit;
use super::ordering::order_to_split;
use super::splits::Splits;
use super::step::{place_to_split, wished};
use convoy_origin::Origin;
use convoy_packets::Instance;
use convoy_regions::Branch;
use convoy_scenario::Time;
use convoy_sim::Record;
use std::alloc::{AllocError, Global};

/// How many latencies the root box is asked for at most, by steps of which no range has more.
const MOST_TESTS: u32 = 100;

/// How many times boxes are split at most until all are closed for a latency.
const MOST_AIMS: u32 = 24;

/// How trees from above go down.
#[derive(Clone, Copy)]
struct Descent {
    /// By what they split boxes.
    splits: Splits,
    /// Whether of a split they go down the first half first.
    first_half_first: bool,
    /// How many boxes they take up at most.
    boxes: u32,
}

impl Descent {
    /// All, in the order in which they are tried. Which of them soon comes to a run differs from scenario to scenario:
    /// some come to it within a few boxes, where others do not within thousands.
    fn all() -> [Descent; 5] {
        [
            Descent::by_orders(true, 25),
            Descent::by_packets(false, 400),
            Descent::by_packets(true, 50),
            Descent::by_orders(false, 50),
            Descent::by_orders(true, 200),
        ]
    }

    /// By splits at packets.
    fn by_packets(first_half_first: bool, boxes: u32) -> Descent {
        Descent {
            splits: Splits::Packets,
            first_half_first,
            boxes,
        }
    }

    /// By orders, too.
    fn by_orders(first_half_first: bool, boxes: u32) -> Descent {
        Descent {
            splits: Splits::Orders,
            first_half_first,
            boxes,
        }
    }

    /// Whether it is tried in such time: in whole ticks no box is split by orders.
    fn is_for(self, time: Time) -> bool {
        match time {
            Time::Ticks => self.splits == Splits::Packets,
            Time::Real => true,
        }
    }
}

/// What seeking from above has come to.
#[derive(Drop)]
pub struct FromAbove {
    /// The record of the greatest latency that was seen.
    pub best: Record,
    /// The least latency, in ticks, for which the root box was seen to be closed, by leads or by boxes below it.
    /// Nothing that a search promises rests on it.
    pub bound: u32,
}

/// Seeks a schedule of a greater latency than a record has, from above (docs/LEADS.md, "From above"): answers a
/// record of one, or the one given. The root box is asked for latencies between the record's and its bound, and has
/// its wish runs simulated for each for which it is open.
///
/// Where the limit says that the gate may stop the search, and it does, the best record so far is answered. The
/// error is that memory ran out.
pub fn root_from_above<G: Gate>(
    alloc: Global,
    instance: &Instance,
    known: Record,
    limit: Limit,
    gate: &G,
) -> Result<FromAbove, AllocError>
    requires of_scenario { known.scenario ≡ instance.now }
    ensures of_scenario { IfOk result (λ found. found.best.scenario ≡ instance.now) }
    ensures no_lower { IfOk result (λ found. known.latency ≤ found.best.latency) }
{
    let origin = Origin::of(alloc, instance)?;
    let mut above = Above::of(alloc, &origin, known);
    let root = Branch::root(alloc, instance)?;
    let bound = above.approach(&root, limit, gate)?;
    Ok(FromAbove {
        best: above.best,
        bound,
    })
}

/// The same below the root, where a bound in ticks is known for which leads close it: boxes are split as in a search
/// by leads that closes them for a latency just below that. Each box that is open has its wish runs simulated. Several
/// trees are tried, each with a number of boxes of its own; in real time boxes of some are split by orders, too.
pub fn split_from_above<G: Gate>(
    alloc: Global,
    instance: &Instance,
    known: Record,
    bound: u32,
    limit: Limit,
    gate: &G,
) -> Result<FromAbove, AllocError>
    requires of_scenario { known.scenario ≡ instance.now }
    ensures of_scenario { IfOk result (λ found. found.best.scenario ≡ instance.now) }
    ensures no_lower { IfOk result (λ found. known.latency ≤ found.best.latency) }
{
    let origin = Origin::of(alloc, instance)?;
    let mut found = FromAbove { best: known, bound };
    for descent in Descent::all() {
        if descent.is_for(instance.time()) {
            found = descend(alloc, &origin, found, descent, limit, gate)?;
        }
    }
    Ok(found)
}

/// The same by trees that go down so.
fn descend<G: Gate>(
    alloc: Global,
    origin: &Origin,
    found: FromAbove,
    descent: Descent,
    limit: Limit,
    gate: &G,
) -> Result<FromAbove, AllocError>
    requires of_scenario { found.best.scenario ≡ origin.now }
    ensures of_scenario { IfOk result (λ after. after.best.scenario ≡ origin.now) }
    ensures no_lower { IfOk result (λ after. found.best.latency ≤ after.best.latency) }
{
    let mut bound = found.bound;
    let mut above = Above {
        descent,
        boxes: descent.boxes,
        ..Above::of(alloc, origin, found.best)
    };
    let mut below = 1;
    for _ in 0..MOST_AIMS {
        if above.best.latency() >= bound || limit.is_over(gate) {
            break;
        }
        let aim = (bound.saturating_sub(below)).max(above.best.latency());
        match above.aim_at(aim, limit, gate)? {
            Aimed::Closed => {
                bound = aim;
                below = below.saturating_mul(2);
            }
            Aimed::Found => {}
            Aimed::GivenUp => break,
        }
    }
    Ok(FromAbove {
        best: above.best,
        bound,
    })
}

/// How a tree from above ended.
enum Aimed {
    /// All its boxes are closed for the latency.
    Closed,
    /// A run of a greater latency was found.
    Found,
    /// No more boxes may be taken up, or one of them can't be split.
    GivenUp,
}

/// Where seeking from above stands.
#[derive(Drop)]
struct Above<'a> {
    alloc: Global,
    origin: &'a Origin<'a>,
    /// The record of the greatest latency that was seen.
    best: Record,
    /// How many boxes may still be taken up.
    boxes: u32,
    /// How it goes down from one to the next.
    descent: Descent,
}

impl<'a> Above<'a> {
    /// Where seeking from above starts from a record.
    fn of(alloc: Global, origin: &'a Origin<'a>, known: Record) -> Above<'a>
        ensures best { result.best ≡ known }
        ensures origin { result.origin.now ≡ origin.now }
    {
        Above {
            alloc,
            origin,
            best: known,
            boxes: 0,
            descent: Descent::by_packets(false, 0),
        }
    }

    /// Asks leads to close the root for latencies between the record's and the plain bound, and simulates the
    /// wish runs of what they leave open; the least latency in ticks for which it was seen closed. A test that is
    /// open takes long, the longer the further it is below the greatest latency, and one that is closed mostly does
    /// not: so it goes down from the bound in steps that grow by half until the root is open, and from there in
    /// quarters of what is left.
    fn approach<G: Gate>(
        &mut self,
        root: &Branch,
        limit: Limit,
        gate: &G,
    ) -> Result<u32, AllocError>
        requires above { IsAbove self.old }
        requires root { root.now.scenario ≡ self.old.origin.now }
        ensures { OnOk result (HasRisen self.old self.new) }
    {
        let mut low = self.best.latency();
        let mut bound = Bounds::Plain.raised(self.alloc, self.origin, root, low)?;
        let mut below = 1;
        let mut was_open = false;
        for _ in 0..MOST_TESTS {
            if low >= bound || limit.is_over(gate) {
                break;
            }
            let aim = bound.saturating_sub(below).max(low);
            if self.ask(root, aim)? {
                bound = aim;
            } else {
                was_open = true;
                low = self.best.latency().max(aim.saturating_add(1));
            }
            below = if was_open {
                bound.saturating_sub(low) / 4 + 1
            } else {
                below.saturating_add(below / 2 + 1)
            };
        }
        Ok(bound)
    }

    /// Whether leads close the root for a latency in ticks; where they do not, its wish runs are simulated.
    fn ask(&mut self, root: &Branch, aim: u32) -> Result<bool, AllocError>
        requires above { IsAbove self.old }
        requires root { root.now.scenario ≡ self.old.origin.now }
        ensures { OnOk result (HasRisen self.old self.new) }
    {
        let asked = Bounds::Lead.ask(self.alloc, self.origin, root, aim)?;
        if asked.leaf.is_some() {
            return Ok(true);
        }
        let known = self.best.latency();
        if let Some(found) = wished(self.alloc, self.origin, root, &asked, known)? {
            self.best = found;
        }
        Ok(false)
    }

    /// Splits boxes until all are closed for a latency in ticks, or a greater one is found.
    fn aim_at<G: Gate>(&mut self, aim: u32, limit: Limit, gate: &G) -> Result<Aimed, AllocError>
        requires { IsAbove self.old }
        ensures { OnOk result (HasRisen self.old self.new) }
    {
        let mut work = Vec::new(self.alloc);
        work.push(Branch::root(self.alloc, self.origin.instance())?)?;
        for _ in 0..self.boxes {
            let Some(branch) = work.pop() else {
                return Ok(Aimed::Closed);
            };
            if limit.is_over(gate) {
                return Ok(Aimed::GivenUp);
            }
            self.boxes = self.boxes.saturating_sub(1);
            if !self.take_up(&mut work, branch, aim)? {
                return Ok(Aimed::GivenUp);
            }
            if self.best.latency() > aim {
                return Ok(Aimed::Found);
            }
        }
        Ok(Aimed::GivenUp)
    }

    /// Closes a box for a latency in ticks, or simulates its wish runs and leaves its halves; whether it could
    /// be closed or split.
    fn take_up(
        &mut self,
        work: &mut Vec<Branch>,
        branch: Branch,
        aim: u32,
    ) -> Result<bool, AllocError>
        requires above { IsAbove self.old }
        requires branch { branch.scenario ≡ self.old.origin.now }
        requires work { All (λ left. left.scenario ≡ self.old.origin.now) work.old.items }
        ensures risen { OnOk result (HasRisen self.old self.new) }
        ensures work { OnOk result (All (λ left. left.scenario ≡ self.old.origin.now) work.new.items) }
    {
        let (alloc, origin) = (self.alloc, self.origin);
        let asked = Bounds::Lead.ask(alloc, origin, &branch, aim)?;
        if asked.leaf.is_some() {
            return Ok(true);
        }
        let known = self.best.latency();
        if let Some(found) = wished(alloc, origin, &branch, &asked, known)? {
            self.best = found;
        }
        let halves = next_halves(alloc, origin, branch, aim, self.descent, asked.left)?;
        let Some((first, second)) = halves else {
            return Ok(matches!(origin.instance().time(), Time::Ticks));
        };
        work.push(first)?;
        work.push(second)?;
        Ok(true)
    }
}

/// The halves of a region that leads leave open for a latency in ticks; the one that is gone down first is the second.
/// None where it has neither. The error is that memory ran out.
fn next_halves(
    alloc: Global,
    origin: &Origin,
    branch: Branch,
    latency: u32,
    descent: Descent,
    left: Option<Box<LeftOpen>>,
) -> Result<Option<(Branch, Branch)>, AllocError>
    requires of_scenario { branch.scenario ≡ origin.now }
    requires left { IfSome left (λ left. IsLeftOpen origin.now branch.region left.value) }
    ensures { IfOk result (λ found. IfSome found (λ halves.
        (halves.0.scenario ≡ origin.now) × (halves.1.scenario ≡ origin.now))) }
{
    let halves = halves_of(alloc, origin, branch, latency, descent.splits, left)?;
    match halves {
        Some((first, second)) if descent.first_half_first => Ok(Some((second, first))),
        _ => Ok(halves),
    }
}

/// The halves of a region that leads leave open for a latency in ticks: in real time by an order that they leave
/// open, or else at a packet; where no region is split by an order, it speaks of the rival being first. None where it
/// has neither. The error is that memory ran out.
#[tactic(auto, using(crate::proofs::Aims::both_of))]
fn halves_of(
    alloc: Global,
    origin: &Origin,
    branch: Branch,
    latency: u32,
    splits: Splits,
    left: Option<Box<LeftOpen>>,
) -> Result<Option<(Branch, Branch)>, AllocError>
    requires of_scenario { branch.scenario ≡ origin.now }
    requires left { IfSome left (λ left. IsLeftOpen origin.now branch.region left.value) }
    ensures { IfOk result (λ found. IfSome found (λ halves.
        (halves.0.scenario ≡ origin.now) × (halves.1.scenario ≡ origin.now))) }
{
    let instance = origin.instance();
    if matches!(instance.time(), Time::Real)
        && (splits == Splits::Orders || branch.is_point())
        && let Some((first, second)) = order_to_split(alloc, instance, &branch, &left)?
    {
        return match branch.orders(alloc, instance, first, second) {
            Ok(halves) => Ok(Some(halves)),
            Err((_whole, error)) => Err(error),
        };
    }
    let rival_first = splits == Splits::Packets;
    let place = place_to_split(alloc, origin, &branch, latency, left, rival_first)?;
    let Some((packet, at)) = place else {
        return Ok(None);
    };
    match branch.halves(instance, usize::from(packet), at) {
        Ok(halves) => Ok(Some(halves)),
        Err((_whole, error)) => Err(error),
    }
}
