ghost use Rattle.std.specs.Prelude.{◌≡◌, ◌∷◌, [], IfOk};
ghost use Rattle.std.specs.Option.{option_map};
ghost use Rattle.std.specs.List.{slice_get};
ghost use Rattle.convoy_intervals.specs.Boxes.{CanSplit};
ghost use Rattle.convoy_regions.specs.Regions.{any_order, lower_half, upper_half};
ghost use Rattle.convoy_checker.specs.Walks.{below_first, regions_after, CanStand, OfFirst};

use super::open_region::{OpenRegion, Step};
use convoy_certificate::Node;
use convoy_intervals::DelayBox;
use convoy_packets::Instance;
use convoy_regions::ordered;
use std::alloc::{AllocError, Global};
use std::marker::Model;

/// A change of the region at which a walk stands.
#[derive(Clone, Copy)]
struct Change {
    step: Step,
    /// Whether the region is an open one once it is changed.
    opens: bool,
}

/// A walk over the regions of a tree in the order of its nodes. A region is open once the split above it
/// has been met and its own node has not. The walk keeps one region, and the changes that make it each
/// of the other open regions in turn, the next change last: so its memory grows with the depth of the
/// tree and not with the packets at each depth.
#[derive(Drop)]
pub(crate) struct Walk {
    current: OpenRegion,
    changes: Vec<Change>,
    /// Whether the region is an open one; it is, until the walk is over.
    stands: bool,
}

impl Model for Walk {
    ghost use Rattle.std.specs.Prelude.{List};
    ghost use Rattle.convoy_regions.specs.Regions.{Region};
    ghost use Rattle.convoy_checker.specs.Walks.{regions_of, IsWalk};

    ghost Value = { List Region };

    ghost view = { λ w. regions_of w.stands w.current w.changes.items };

    ghost invariant = { λ w. IsWalk w.stands w.current w.changes.items };
}

impl Walk {
    /// A walk at whose start one box is open, with ties in any order.
    pub(crate) fn over(alloc: Global, root: DelayBox) -> Walk
        ensures { result ≡ any_order root ∷ [] }
    {
        Walk {
            current: OpenRegion::over(alloc, root),
            changes: Vec::new(alloc),
            stands: true,
        }
    }

    /// The open region whose node comes next; None once the walk is over.
    pub(crate) fn next_region(&self) -> Option<&OpenRegion>
        ensures { option_map (λ r. r.now) result ≡ slice_get self.now 0 }
    {
        self.stands.then_some(&self.current)
    }

    /// Goes past the next node, which stands over the next region. A split opens the halves of the region,
    /// the lower one next, or that in which the first stage comes before the second.
    pub(crate) fn pass(
        &mut self,
        alloc: Global,
        instance: &Instance,
        node: Node,
    ) -> Result<(), AllocError>
        requires { CanStand instance.now node self.old }
        ensures { IfOk result (λ _. self.new ≡ regions_after instance.now node self.old) }
    {
        match node {
            Node::Split { packet, at } => self.split(packet, at),
            Node::Order { first, second } => self.order(alloc, instance, first, second),
            Node::Bound | Node::Point | Node::Stamp | Node::Lead { .. } => {
                self.leave();
                Ok(())
            }
        }
    }

    /// Opens the halves of the next region by a delay in its place, the lower one next.
    fn split(&mut self, packet: u16, at: u16) -> Result<(), AllocError>
        requires { OfFirst (λ region. CanSplit region.ranges packet at) self.old }
        ensures { IfOk result (λ _. self.new ≡ below_first
            (λ region. lower_half region packet at ∷ upper_half region packet at ∷ []) self.old) }
    {
        let (least, most) = self.current.delay_box().range(usize::from(packet));
        self.changes.push(Change {
            step: Step::Range {
                packet,
                range: (least, most),
            },
            opens: false,
        })?;
        self.changes.push(Change {
            step: Step::Range {
                packet,
                range: (at + 1, most),
            },
            opens: true,
        })?;
        self.current.change(Step::Range {
            packet,
            range: (least, at),
        });
        Ok(())
    }

    /// Opens the halves of the next region by the order of two stages in its place, that in which the first
    /// comes before the second next.
    fn order(
        &mut self,
        alloc: Global,
        instance: &Instance,
        first: u8,
        second: u8,
    ) -> Result<(), AllocError>
        requires { CanStand instance.now (Node.Order first second) self.old }
        ensures { IfOk result (λ _. self.new
            ≡ regions_after instance.now (Node.Order first second) self.old) }
    {
        let pair = ordered(
            alloc,
            instance.scenario(),
            usize::from(first),
            usize::from(second),
        )?;
        self.changes.push(Change {
            step: Step::Without,
            opens: false,
        })?;
        self.changes.push(Change {
            step: Step::Turned,
            opens: true,
        })?;
        self.current.add(pair)?;
        Ok(())
    }

    /// Closes the next region: makes it the open region that comes then, or ends the walk.
    fn leave(&mut self)
        ensures { self.new ≡ below_first (λ _. []) self.old }
    {
        while let Some(change) = self.changes.pop() {
            self.current.change(change.step);
            if change.opens {
                return;
            }
        }
        self.stands = false;
    }
}
