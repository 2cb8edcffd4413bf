//! The rule that holds of a deque between any two steps, and the names of its steps
//! (`specs/Rule.antt`).

use super::task::Task;
use convoy_intervals::DelayBox;
use convoy_regions::Precedence;
use convoy_scenario::Scenario;
use crossbeam_deque::protocol::{Join, Lesson, Outcome, Protocol, Split};
use std::collections::LinkedList;
use std::marker::Model;

/// The region of a branch, as the rule knows it. No value of it is made.
pub struct Place {
    delay_box: DelayBox,
    before: Vec<Precedence>,
}

impl Model for Place {
    ghost use Rattle.convoy_regions.specs.Regions.{Region};

    ghost Value = { Region };

    ghost view = { λ p. record { ranges = p.delay_box; before = p.before.items } };
}

/// What the rule knows of the owner, or of one thief. No value of it is made.
pub struct View {
    /// The scenario of the branches.
    pub scenario: Scenario,
    /// Its share.
    pub share: u64,
    /// Whether it is the owner.
    pub owns: bool,
    /// The regions of the branches that the owner put, by number.
    pub put: LinkedList<Place>,
    /// The tasks that it took.
    pub taken: LinkedList<Task>,
}

/// Each branch that was put stands in the deque or was taken by one of those who share it, once.
pub struct EachOnce;

impl Protocol<Task, View> for EachOnce {
    ghost use Rattle.convoy_share_deque.specs.Rule.{Holds, opener, nobody};

    ghost holds = { Holds };

    ghost first = { opener };

    ghost guest = { nobody };
}

/// The first branch is put.
pub struct Begin;

impl Outcome<Task, View> for Begin {
    ghost use Rattle.convoy_share_deque.specs.Rule.{HasPut};

    ghost then = { HasPut };
}

/// A branch is put.
pub struct Put;

impl Outcome<Task, View> for Put {
    ghost use Rattle.convoy_share_deque.specs.Rule.{HasPut};

    ghost then = { HasPut };
}

/// The owner takes a branch, or finds none.
pub struct Take;

impl Outcome<Task, View> for Take {
    ghost use Rattle.convoy_share_deque.specs.Rule.{HasTaken, IsEmptied};

    ghost then = { HasTaken };

    ghost empty = { IsEmptied };
}

/// A thief takes a branch.
pub struct Rob;

impl Outcome<Task, View> for Rob {
    ghost use Rattle.convoy_share_deque.specs.Rule.{HasTaken};

    ghost then = { HasTaken };
}

/// The tasks are counted, which tells nothing of them.
pub struct Count;

impl Lesson<Task, View> for Count {
    ghost fact = { λ _ _. Unit {0} };
}

/// How a thief gets its share, and how it comes back.
pub struct OneShare;

impl Split<View> for OneShare {
    ghost use Rattle.convoy_share_deque.specs.Rule.{kept_share, given_share};

    ghost left = { kept_share };

    ghost right = { given_share };
}

impl Join<View> for OneShare {
    ghost use Rattle.convoy_share_deque.specs.Rule.{joined, nobody};

    ghost both = { joined };

    ghost spent = { nobody };
}
