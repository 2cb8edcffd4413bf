//! The laws of room and of widened scenarios. Each is the one clause of a function that does nothing; a caller that
//! needs the law calls the function.

ghost use Rattle.convoy_scenario.specs.WidenedLaws.{RoomIsDecided, StillTargetsHaveRoom, WidenedIsItself, WidenedIsScenario};

/// The test of room answers yes just where the target has room.
pub fn room_is_decided()
    ensures { RoomIsDecided }
{}

/// A message that does not wait has room as the target.
pub fn still_targets_have_room()
    ensures { StillTargetsHaveRoom }
{}

/// The widened scenario of a well-formed one is well formed.
pub fn widened_is_scenario()
    ensures { WidenedIsScenario }
{}

/// A scenario whose target does not wait is its own widened scenario.
pub fn widened_is_itself()
    ensures { WidenedIsItself }
{}
