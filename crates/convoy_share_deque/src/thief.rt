//! A thief's end of the deque.

ghost use Rattle.std.specs.Prelude.{◌≡◌, false, [], ◌∷◌, ◌++◌};
ghost use Rattle.crossbeam_deque.specs.Handles.{IsPassOf, stealer_deque, view as pass_view};
ghost use Rattle.crossbeam_deque.specs.Steals.{MatchSteal};
ghost use Rattle.convoy_share_deque.specs.Tasks.{IsOf, thief_end};

use super::rule::{EachOnce, Rob, View};
use super::task::Task;
use crossbeam_deque::{Pass, Steal, Stealer};
use std::alloc::Global;
use std::marker::Model;

/// A thief's end of a deque, which takes branches from another thread than the owner's. Contracts see
/// its deque, the scenario of the branches, and the tasks that it took. No call waits for another
/// thread.
#[derive(Drop)]
pub struct Thief {
    stealer: Stealer<Task, Global, View, EachOnce>,
    pass: Pass<Task, View, Global>,
}

impl Model for Thief {
    ghost use Rattle.std.specs.Prelude.{◌≡◌, false, []};
    ghost use Rattle.crossbeam_deque.specs.Handles.{IsPassOf, stealer_deque, view as pass_view};
    ghost use Rattle.convoy_share_deque.specs.Tasks.{ThiefEnd, thief_end};

    ghost Value = { ThiefEnd };

    ghost view = { λ t. thief_end (stealer_deque t.stealer) (pass_view t.pass) };

    ghost invariant = { λ t. IsPassOf (stealer_deque t.stealer) t.pass
        × ((pass_view t.pass).share ≡ 1)
        × ((pass_view t.pass).owns ≡ false)
        × ((pass_view t.pass).put ≡ []) };
}

impl Thief {
    /// A thief of a stealer and a pass of one deque.
    pub(crate) fn of(
        stealer: Stealer<Task, Global, View, EachOnce>,
        pass: Pass<Task, View, Global>,
    ) -> Thief
        requires pass { IsPassOf (stealer_deque stealer) pass }
        requires share { (pass_view pass).share ≡ 1 }
        requires guest { (pass_view pass).owns ≡ false }
        requires none { (pass_view pass).put ≡ [] }
        ensures { result ≡ thief_end (stealer_deque stealer) (pass_view pass) }
    {
        Thief { stealer, pass }
    }

    /// Its pass.
    pub(crate) fn into_pass(self) -> Pass<Task, View, Global>
        ensures pass { IsPassOf self.deque result }
        ensures share { (pass_view result).share ≡ 1 }
        ensures guest { (pass_view result).owns ≡ false }
        ensures taken { (pass_view result).taken ≡ self.taken }
    {
        let Thief { pass, .. } = self;
        pass
    }

    /// Takes the branch that was put first of those that stand in the deque. `Retry` tells that
    /// another took the branch that it was after.
    pub fn steal(&mut self) -> Steal<Task>
        ensures { MatchSteal result (self.new ≡ self.old) (self.new ≡ self.old)
            (λ task. (self.new ≡ record self.old { taken = self.old.taken ++ task ∷ [] })
            × IsOf self.old.scenario task) }
    {
        match self.stealer.steal_as::<Rob>(&mut self.pass) {
            Steal::Success(task) => Steal::Success(task),
            Steal::Empty => Steal::Empty,
            Steal::Retry => Steal::Retry,
        }
    }
}
