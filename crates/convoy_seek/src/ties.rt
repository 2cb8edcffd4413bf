//! Changes of orders of ties, in real time: the ranks that are tried are 0 and 1.

ghost use Rattle.std.specs.Prelude.{◌≡◌, ◌<◌, length, IfOk, IsTrue, ◌↔◌};
ghost use Rattle.convoy_draft.specs.declared.time.Time.TheVariants.{Real};
ghost use Rattle.convoy_packets.specs.Assignment.{IsAssignment};
ghost use Rattle.convoy_packets.specs.OrderLists.{AreSmall};

use crate::chance::Chance;
use convoy_packets::schedule_laws::ranks_are_one_each;
use convoy_packets::{Instance, Order, Schedule};
use convoy_scenario::Time;
use std::alloc::{AllocError, Global};

/// Gives one to three moments by chance the other rank of the two. The error is that memory ran out.
pub fn flip_ranks(
    alloc: Global,
    instance: &Instance,
    schedule: &mut Schedule,
    chance: &mut Chance,
) -> Result<(), AllocError>
    requires real { instance.now.time ≡ Real }
    requires assignment { IsAssignment instance.now schedule.old }
    ensures { IsAssignment instance.now schedule.new }
{
    ranks_are_one_each();
    let mut ranks = schedule.order().ranks(alloc, instance.scenario())?;
    for _ in 0..chance.below(3) + 1 {
        flip_rank(&mut ranks, chance);
    }
    schedule.set_order(Order::from_ranks(instance.scenario(), &ranks));
    Ok(())
}

/// Gives a moment by chance the other rank of the two.
fn flip_rank(ranks: &mut [u16], chance: &mut Chance)
    requires { AreSmall ranks.old }
    ensures { AreSmall ranks.new }
{
    if ranks.is_empty() {
        return;
    }
    let i = chance.below(ranks.len());
    ranks[i] = u16::from(ranks[i] == 0);
}

/// Gives the moment of a rank the rank 0; whether it had another. The error is that memory ran out.
pub fn clear_rank(
    alloc: Global,
    instance: &Instance,
    schedule: &mut Schedule,
    i: usize,
) -> Result<bool, AllocError>
    requires real { instance.now.time ≡ Real }
    requires assignment { IsAssignment instance.now schedule.old }
    ensures { IsAssignment instance.now schedule.new }
{
    ranks_are_one_each();
    let mut ranks = schedule.order().ranks(alloc, instance.scenario())?;
    if i >= ranks.len() || ranks[i] == 0 {
        return Ok(false);
    }
    ranks[i] = 0;
    schedule.set_order(Order::from_ranks(instance.scenario(), &ranks));
    Ok(true)
}

/// Whether time is real.
pub fn is_real(instance: &Instance) -> bool
    ensures { IsTrue result ↔ (instance.now.time ≡ Real) }
{
    match instance.time() {
        Time::Ticks => false,
        Time::Real => true,
    }
}
