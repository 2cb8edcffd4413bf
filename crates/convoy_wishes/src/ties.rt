//! Orders of ties that do what wishes of order say, as far as these agree.

ghost use Rattle.std.specs.Prelude.{◌<◌, length, IfOk, IfSome, OnOk};
ghost use Rattle.convoy_draft.specs.declared.limits.TheConstants.{MOST_GROUPS, MOST_MULTICASTS};
ghost use Rattle.convoy_packets.specs.OrderLists.{AreSmall};
ghost use Rattle.convoy_wishes.specs.declared.ties.TheConstants.{MOMENTS};

use super::moments::Moments;
use super::order_wishes::Before;
use super::scene::Scene;
use convoy_packets::GREATEST_RANK;
use convoy_scenario::{MOST_GROUPS, MOST_MULTICASTS};
use convoy_sure::destinations;
use std::alloc::{AllocError, Global};

/// How many moments there may be at a group.
const MOMENTS: usize = 2 * MOST_MULTICASTS;

/// The greatest rank.
const GREATEST: u16 = GREATEST_RANK as u16;

/// A moment at a group, the arrival of a message or its commit, by a number: in the fixed order of a tick the
/// lesser numbers come first.
#[derive(Clone, Copy)]
pub(crate) struct Moment {
    number: usize,
    ghost known: { number < MOMENTS },
}

impl Moment {
    /// The arrival of a message.
    pub(crate) fn arrival(message: usize) -> Moment
        requires { message < MOST_MULTICASTS }
    {
        Moment { number: message }
    }

    /// The commit of a message.
    pub(crate) fn commit(message: usize) -> Moment
        requires { message < MOST_MULTICASTS }
    {
        Moment {
            number: MOST_MULTICASTS + message,
        }
    }

    /// Its number.
    fn number(self) -> usize
        ensures { result < MOMENTS }
    {
        self.number
    }
}

/// What is to come before what at one group.
#[derive(Drop)]
struct Ties {
    /// The tick of each moment, by its number.
    ticks: [i64; MOMENTS],
    /// For each moment, by its number, those of its tick that are to come before it, one bit each.
    before: [u32; MOMENTS],
    /// The moments that there are, one bit each.
    there: u32,
}

/// The rank of each moment of a group among those of its tick, by its number.
type Ranks = [u16; MOMENTS];

/// The bit of a number.
fn bit(number: usize) -> u32
    requires { number < MOMENTS }
{
    1u32 << number
}

/// Whether a number is among some.
fn has(numbers: u32, number: usize) -> bool
    requires { number < MOMENTS }
{
    numbers & bit(number) != 0
}

impl Ties {
    /// The moments of a group, of which each arrival comes before its own commit and nothing else is wanted.
    fn of(scene: &Scene, moments: &Moments, group: usize) -> Ties
        requires { group < MOST_GROUPS }
    {
        let mut ties = Ties {
            ticks: [0; MOMENTS],
            before: [0; MOMENTS],
            there: 0,
        };
        for message in 0..scene.instance.message_count() {
            if scene.goes_to(message, group) {
                ties.add(moments, message, group);
            }
        }
        ties
    }

    /// Adds both moments of a message.
    fn add(&mut self, moments: &Moments, message: usize, group: usize)
        requires message { message < MOST_MULTICASTS }
        requires group { group < MOST_GROUPS }
    {
        let (arrival, commit) = (message, MOST_MULTICASTS + message);
        self.ticks[arrival] = moments.arrival(message, group);
        self.ticks[commit] = moments.commit(message, group);
        self.there |= bit(arrival) | bit(commit);
        if self.ticks[arrival] == self.ticks[commit] {
            self.before[commit] = bit(arrival);
        }
    }

    /// Puts one moment before another one, if both are in one tick and the other one is not to come first.
    fn put(&mut self, first: usize, second: usize)
        requires first { first < MOMENTS }
        requires second { second < MOMENTS }
    {
        let is_tie = first != second && self.ticks[first] == self.ticks[second];
        if !is_tie || has(self.before[first], second) || has(self.before[second], first) {
            return;
        }
        let earlier = self.before[first] | bit(first);
        for moment in 0..MOMENTS {
            if moment == second || has(self.before[moment], second) {
                self.before[moment] |= earlier;
            }
        }
    }

    /// The ranks: in turn the first moment in the fixed order before which none of its tick is left.
    fn ranks(&self) -> Ranks {
        let mut ranks = [0; MOMENTS];
        let mut left = self.there;
        for _ in 0..MOMENTS {
            let Some(moment) = self.next(left) else {
                break;
            };
            ranks[moment] = self.rank(moment, left);
            left &= !bit(moment);
        }
        ranks
    }

    /// The first of the moments that are left before which none of them is to come.
    fn next(&self, left: u32) -> Option<usize>
        ensures { IfSome result (λ moment. moment < MOMENTS) }
    {
        for moment in 0..MOMENTS {
            let before = self.before[moment];
            if has(left, moment) && before & left == 0 {
                return Some(moment);
            }
        }
        None
    }

    /// How many moments of its tick are no longer left.
    fn rank(&self, moment: usize, left: u32) -> u16
        requires { moment < MOMENTS }
    {
        let done = self.there & !left;
        let mut rank: u16 = 0;
        for other in 0..MOMENTS {
            if has(done, other) && self.ticks[other] == self.ticks[moment] {
                rank = rank.saturating_add(1);
            }
        }
        rank
    }
}

impl<'a> Scene<'a> {
    /// The ranks of an order of ties that does what the wishes say, those that come first more often, where
    /// moments come at those ticks: as a list that [`Order::from_ranks`](convoy_packets::Order::from_ranks) reads.
    pub(crate) fn ranks(
        &self,
        alloc: Global,
        moments: &Moments,
        wishes: &[Before],
    ) -> Result<Vec<u16>, AllocError>
        ensures { IfOk result (λ ranks. AreSmall ranks.items) }
    {
        let mut by_group = [[0; MOMENTS]; MOST_GROUPS];
        for group in 0..self.instance.group_count().min(MOST_GROUPS) {
            by_group[group] = self.ranks_at(moments, wishes, group);
        }
        let mut ranks = Vec::new(alloc);
        for message in 0..self.instance.message_count() {
            self.list_ranks(&mut ranks, &by_group, message)?;
        }
        Ok(ranks)
    }

    /// Adds the ranks of a message at its groups: of its arrival, then of its commit.
    fn list_ranks(
        &self,
        ranks: &mut Vec<u16>,
        by_group: &[Ranks; MOST_GROUPS],
        message: usize,
    ) -> Result<(), AllocError>
        requires message { message < length self.now.instance.now.multicasts }
        requires small { AreSmall ranks.old.items }
        ensures { OnOk result (AreSmall ranks.new.items) }
    {
        for group in destinations(self.instance.scenario(), message) {
            let of_group = by_group[*group];
            ranks.push(of_group[message].min(GREATEST))?;
            ranks.push(of_group[MOST_MULTICASTS + message].min(GREATEST))?;
        }
        Ok(())
    }

    /// The ranks of the moments of a group.
    fn ranks_at(&self, moments: &Moments, wishes: &[Before], group: usize) -> Ranks
        requires { group < MOST_GROUPS }
    {
        let mut ties = Ties::of(self, moments, group);
        for wish in wishes {
            if wish.group == group {
                ties.put(wish.first.number(), wish.second.number());
            }
        }
        ties.ranks()
    }
}
