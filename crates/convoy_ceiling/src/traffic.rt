ghost use Rattle.std.specs.Prelude.{◌<◌, length, IfOk, IfSome};
ghost use Rattle.convoy_ceiling.specs.Targets.{AsksTheSame};

use super::asking::asks_the_same;
use super::plan::Plan;
use convoy_packets::Instance;
use convoy_scenario::{Scenario, ScenarioFault};
use std::alloc::{AllocError, Global};

/// The traffic of a plan, with its packets; None where it is over a limit of scenarios.
pub fn traffic_of(
    alloc: Global,
    scenario: &Scenario,
    plan: &Plan,
) -> Result<Option<Instance>, AllocError>
    requires rival { plan.now.rival < length scenario.now.multicasts }
    requires pusher { plan.now.pusher < length scenario.now.multicasts }
    ensures { IfOk result (λ made. IfSome made (λ traffic. AsksTheSame scenario.now traffic)) }
{
    match Scenario::from_draft(alloc, plan.draft(alloc, scenario)?) {
        Ok(traffic) if asks_the_same(scenario, &traffic) => {
            let instance = Instance::of(alloc, traffic)?;
            Ok(Some(instance))
        }
        Err(ScenarioFault::Memory) => Err(AllocError),
        _ => Ok(None),
    }
}
