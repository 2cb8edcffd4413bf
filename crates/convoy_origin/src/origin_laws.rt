//! Scenarios in which the target may wait, told as ones in which it does not: the target is issued at the end of its
//! window, and each other message may wait longer by as much as the target might. Each law is the one clause of a
//! function that does nothing; a caller that needs the law calls the function.

ghost use Rattle.convoy_origin.specs.Widened.{AssignmentsWiden, UpperOfWidened};

/// Each run of a scenario is one of the widened scenario, moved, so that it has the same latency.
pub fn assignments_widen()
    ensures { AssignmentsWiden }
{}

/// So a latency that no run of the widened scenario exceeds, none of the scenario does.
pub fn upper_of_widened()
    ensures { UpperOfWidened }
{}
