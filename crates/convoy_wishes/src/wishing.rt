ghost use Rattle.std.specs.Prelude.{◌≡◌, ◌<◌, ◌≤◌, All, IfOk, IfSome};
ghost use Rattle.convoy_draft.specs.declared.time.Time.TheVariants.{Real};
ghost use Rattle.convoy_intervals.specs.Boxes.{IsBox};
ghost use Rattle.convoy_starts.specs.Links.{IsLink};
ghost use Rattle.convoy_leads.specs.Openings.{IsOpenCase};
ghost use Rattle.convoy_packets.specs.Assignment.{IsAssignment};
ghost use Rattle.convoy_wishes.specs.Wishes.{IsWishRun};
ghost use Rattle.convoy_wishes.specs.Wishing.{HasTried, IsScene, IsWishing};

use super::ends::{End, Keeping};
use super::latest::{EventTicks, Latest};
use super::laying::SoonCommits;
use super::moments::Moments;
use super::scene::Scene;
use convoy_intervals::DelayBox;
use convoy_intervals::box_laws::members_are_assignments;
use convoy_leads::{Link, OpenCase};
use convoy_packets::schedule_laws::fixed_order_is_order;
use convoy_packets::{Instance, Order, Schedule};
use convoy_scenario::Time;
use convoy_sim::{Record, latency};
use std::alloc::{AllocError, Global};

/// Simulates runs of a box that do what an open case of it wants, as far as they can, with that chain of the
/// case: a record of the greatest latency above the one that is known, in ticks, or none.
///
/// The wishes of the case and its chain are kept one by one, each where a run is left that does it with those
/// before, in three orders; of the runs that are left then, the one in which all else comes latest is tried, and
/// the one in which it comes earliest, both also with the stamp of the rival at the target's group made low. In
/// real time ties fall as the wishes say (docs/LEADS.md, "Wish runs"). The error is that memory ran out; all that
/// is taken is given back.
pub fn wish(
    alloc: Global,
    instance: &Instance,
    delay_box: &DelayBox,
    case: &OpenCase,
    links: &[Link],
    known: u32,
) -> Result<Option<Record>, AllocError>
    requires inside { IsBox instance.now delay_box.now }
    requires case { IsOpenCase instance.now case.now }
    requires links { All (IsLink instance.now) links.now }
    ensures { IfOk result
        (λ found. IfSome found (IsWishRun instance.now delay_box.now known)) }
{
    let scene = Scene {
        instance,
        delay_box,
        case,
        links,
    };
    let mut wishing = Wishing::of(alloc, scene, known)?;
    for keeping in Keeping::ALL {
        wishing.try_keeping(keeping)?;
    }
    Ok(wishing.best)
}

/// Where the simulation of wish runs stands.
#[derive(Drop)]
pub(crate) struct Wishing<'a> {
    alloc: Global,
    scene: Scene<'a>,
    /// Which commits the chain wants soon.
    soon: SoonCommits,
    /// What was laid and simulated.
    laid: Vec<Laid>,
    /// The schedule that is simulated next.
    tried: Schedule,
    /// The greatest latency that is known, in ticks.
    known: u32,
    /// The record of the greatest latency above that, if one was found.
    best: Option<Record>,
}

/// What a schedule is laid by.
#[derive(Clone, Copy, PartialEq, Eq)]
struct Laid {
    ticks: EventTicks,
    end: End,
}

impl<'a> Wishing<'a> {
    /// With no run simulated.
    fn of(alloc: Global, scene: Scene<'a>, known: u32) -> Result<Wishing<'a>, AllocError>
        requires { IsScene scene }
        ensures { IfOk result (IsWishing scene.entry.instance.now scene.entry.delay_box.now known) }
    {
        fixed_order_is_order();
        members_are_assignments();
        let soon = scene.soon_commits();
        let tried = scene.delay_box.greatest(alloc)?;
        Ok(Wishing {
            alloc,
            scene,
            soon,
            laid: Vec::new(alloc),
            tried,
            known,
            best: None,
        })
    }

    /// Tries the runs of the wishes that are kept in such an order.
    fn try_keeping(&mut self, keeping: Keeping) -> Result<(), AllocError>
        requires { IsWishing self.old.scene.instance.now self.old.scene.delay_box.now self.old.known self.old }
        ensures { HasTried self.old self.new }
    {
        let mut latest = Latest::new(self.alloc);
        self.scene.keep_box(&mut latest)?;
        self.scene.keep_case(&mut latest)?;
        self.scene.keep_chain(&mut latest, keeping)?;
        for end in End::BOTH {
            self.try_end(&mut latest, end)?;
        }
        Ok(())
    }

    /// Tries one end of the runs that such wishes leave, without and with the rival's stamp made low. The
    /// wishes that were kept are the same after it.
    fn try_end(&mut self, latest: &mut Latest, end: End) -> Result<(), AllocError>
        requires { IsWishing self.old.scene.instance.now self.old.scene.delay_box.now self.old.known self.old }
        ensures { HasTried self.old self.new }
    {
        let mark = latest.mark();
        self.try_laid(Laid::by(latest, end))?;
        self.scene.keep_rival_first(latest)?;
        let first = Laid::by(latest, end);
        self.lay(&first);
        let moments = Moments::of(self.scene.instance, &self.tried);
        let low = if self.scene.keep_low(latest, &moments)? {
            Laid::by(latest, end)
        } else {
            first
        };
        self.try_laid(low)?;
        latest.back_to(&mark);
        Ok(())
    }

    /// Lays a schedule and simulates it, unless it was before.
    fn try_laid(&mut self, laid: Laid) -> Result<(), AllocError>
        requires { IsWishing self.old.scene.instance.now self.old.scene.delay_box.now self.old.known self.old }
        ensures { HasTried self.old self.new }
    {
        if self.laid.contains(&laid) {
            return Ok(());
        }
        self.laid.push(laid)?;
        self.lay(&laid);
        self.simulate()
    }

    /// Lays the schedule that is tried.
    fn lay(&mut self, laid: &Laid)
        requires { IsWishing self.old.scene.instance.now self.old.scene.delay_box.now self.old.known self.old }
        ensures { HasTried self.old self.new }
    {
        members_are_assignments();
        let _delay_box = self.scene.delay_box.len();
        self.scene
            .lay(&mut self.tried, &laid.ticks, laid.end, &self.soon);
    }

    /// Simulates the schedule that is tried, with ties as the wishes say, and keeps a record of it where its
    /// latency is above all that were seen.
    fn simulate(&mut self) -> Result<(), AllocError>
        requires { IsWishing self.old.scene.instance.now self.old.scene.delay_box.now self.old.known self.old }
        ensures { HasTried self.old self.new }
    {
        if let Time::Real = self.scene.instance.time() {
            self.order_ties()?;
        }
        self.note_tried()
    }

    /// Keeps a record of the schedule that is tried where its latency is above all that were seen.
    fn note_tried(&mut self) -> Result<(), AllocError>
        requires { IsWishing self.old.scene.instance.now self.old.scene.delay_box.now self.old.known self.old }
        ensures { HasTried self.old self.new }
    {
        let latency = latency(self.scene.instance, &self.tried);
        if latency <= self.most() {
            return Ok(());
        }
        let schedule = self.tried.copy()?;
        self.best = Some(Record::of(self.scene.instance, schedule));
        Ok(())
    }

    /// Gives the schedule that is tried an order of ties as the wishes say.
    fn order_ties(&mut self) -> Result<(), AllocError>
        requires real { self.old.scene.instance.now.time ≡ Real }
        requires wishing { IsWishing self.old.scene.instance.now self.old.scene.delay_box.now self.old.known self.old }
        ensures { HasTried self.old self.new }
    {
        let moments = Moments::of(self.scene.instance, &self.tried);
        let mut wishes = self.scene.orders(self.alloc)?;
        self.scene.order_low(self.alloc, &mut wishes, &moments)?;
        let ranks = self.scene.ranks(self.alloc, &moments, &wishes)?;
        let order = Order::from_ranks(self.scene.instance.scenario(), &ranks);
        self.tried.set_order(order);
        Ok(())
    }

    /// The greatest latency that was seen, in ticks.
    fn most(&self) -> u32
        requires { IfSome self.now.best (λ best. self.now.known < best.latency) }
        ensures { self.now.known ≤ result }
    {
        match &self.best {
            Some(best) => best.latency(),
            None => self.known,
        }
    }
}

impl Laid {
    /// One end of the ticks that wishes leave.
    fn by(latest: &Latest, end: End) -> Laid {
        let ticks = match end {
            End::Latest => *latest.ticks(),
            End::Earliest => latest.earliest(),
        };
        Laid { ticks, end }
    }
}
