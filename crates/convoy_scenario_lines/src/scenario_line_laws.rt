//! The laws of the lines of scenarios. Each is the one clause of a function that does nothing; a caller
//! that needs the law calls the function.

ghost use Rattle.convoy_scenario_lines.specs.ScenarioLineLaws.{ScenarioLinesAreLines, ScenariosAreTheirLines};

/// The lines of a well-formed scenario are lines: none has a byte 10 in it.
pub fn scenario_lines_are_lines()
    ensures { ScenarioLinesAreLines }
{}

/// The lines of a well-formed scenario are read as that scenario, whatever comes after them, and no
/// other lines are.
pub fn scenarios_are_their_lines()
    ensures { ScenariosAreTheirLines }
{}
