ghost use Rattle.std.specs.Prelude.{◌≡◌, OnOk};
ghost use Rattle.convoy_regions.specs.Regions.{any_order, with_order};
ghost use Rattle.convoy_checker.specs.Walks.{changed, turned, without_last, IsStepOf};

use convoy_intervals::DelayBox;
use convoy_regions::Precedence;
use std::alloc::{AllocError, Global};
use std::marker::Model;

/// A step from one region to another.
#[derive(Clone, Copy)]
pub(crate) enum Step {
    /// A packet gets another range, in ticks.
    Range { packet: u16, range: (u16, u16) },
    /// The last precedence is turned round.
    Turned,
    /// The last precedence goes.
    Without,
}

/// A region of a tree: a box, and what comes before what.
#[derive(Drop)]
pub(crate) struct OpenRegion {
    delay_box: DelayBox,
    before: Vec<Precedence>,
}

impl Model for OpenRegion {
    ghost use Rattle.convoy_regions.specs.Regions.{Region};

    ghost Value = { Region };

    ghost view = { λ r. record { ranges = r.delay_box; before = r.before.items } };
}

impl OpenRegion {
    /// A box, with ties in any order.
    pub(crate) fn over(alloc: Global, delay_box: DelayBox) -> OpenRegion
        ensures { result ≡ any_order delay_box }
    {
        OpenRegion {
            delay_box,
            before: Vec::new(alloc),
        }
    }

    /// Its box.
    pub(crate) fn delay_box(&self) -> &DelayBox
        ensures { result.now ≡ self.now.ranges }
    {
        &self.delay_box
    }

    /// What comes before what.
    pub(crate) fn before(&self) -> &[Precedence]
        ensures { result.now ≡ self.now.before }
    {
        &self.before
    }

    /// Goes a step.
    pub(crate) fn change(&mut self, step: Step)
        requires { IsStepOf self.old.ranges step }
        ensures { self.new ≡ changed self.old step }
    {
        match step {
            Step::Range { packet, range } => {
                self.delay_box.replace(usize::from(packet), range);
            }
            Step::Turned => turn_last(&mut self.before),
            Step::Without => leave_last(&mut self.before),
        }
    }

    /// Adds a precedence.
    pub(crate) fn add(&mut self, pair: Precedence) -> Result<(), AllocError>
        ensures value { OnOk result (self.new ≡ with_order self.old pair.0 pair.1) }
        ensures ranges { self.new.ranges ≡ self.old.ranges }
    {
        self.before.push(pair)?;
        Ok(())
    }
}

/// Turns the last precedence round.
fn turn_last(before: &mut Vec<Precedence>)
    ensures { before.new.items ≡ turned before.old.items }
{
    let count = before.len();
    if count > 0 {
        let (first, second) = before[count - 1];
        before[count - 1] = (second, first);
    }
}

/// Takes the last precedence away.
fn leave_last(before: &mut Vec<Precedence>)
    ensures { before.new.items ≡ without_last before.old.items }
{
    before.pop();
}
