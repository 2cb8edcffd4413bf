//! Plans: scenario texts whose links and senders name sites, and which say at which sites each group may be; their reader,
//! and the scenario of each placement of the groups.
#![tactic(auto)]

pub use fault::{MOST_PLACEMENTS, MOST_SITES, PlanFault, PlanKey, PlanLimit};
pub use kept::is_placement;
pub use placements::{scenario_at, written_at};
pub use plan::{Origin, Plan};
pub use read::read_plan;

mod checks;
mod fault;
mod kept;
mod lists;
mod making;
mod numbers;
mod placements;
mod plan;
pub mod plan_laws;
mod ranges;
mod read;
mod shape;
mod spot;
mod told;
mod written;
