ghost use Rattle.std.specs.Prelude.{IfOk};
ghost use Rattle.convoy_library.specs.Memory.{IsUnlessMemory};
ghost use Rattle.convoy_library.specs.Numbering.{scenario_of_draft};
ghost use Rattle.convoy_library.specs.WellFormed.{IsScenario};
ghost use Rattle.convoy_library_tests.specs.declared.fault.Fault.TheVariants.{Memory};
ghost use Rattle.convoy_library_tests.specs.Answers.{exchange, told};
ghost use Rattle.convoy_library_tests.specs.Faults.{of_scenario};

use super::fault::Fault;
use convoy_library::scenario::{MessageParts, Scenario, ScenarioParts, Time};
use std::alloc::Global;

/// The scenario in which a client sends one message to the groups a and b at tick 0, and it is asked
/// when a delivers it. Time goes in whole ticks, and a packet takes at most `delay` of them.
///
/// A `delay` that is not from 1 to `GREATEST_WHOLE_DELAY`, which is 16, is told as `Fault::Scenario`.
pub fn exchange(alloc: Global, delay: u32) -> Result<Scenario, Fault>
    ensures value { IsUnlessMemory Memory
        (told of_scenario (scenario_of_draft (exchange delay))) result }
    ensures lawful { IfOk result (λ scenario. IsScenario scenario) }
{
    let parts = ScenarioParts {
        time: Time::Ticks,
        tick: None,
        delay,
        groups: &["a", "b"],
        places: &[],
        links: &[],
        messages: &[MessageParts {
            name: "m",
            sender: None,
            to: &["a", "b"],
            at: 0,
            until: 0,
        }],
        target_message: "m",
        target_group: "a",
    };
    Ok(Scenario::new(alloc, &parts)?)
}
