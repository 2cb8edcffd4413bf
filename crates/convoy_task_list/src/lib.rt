//! Tasks, as data: what a run may be asked for.
#![tactic(auto)]

pub use of_certificates::CertificateTask;
pub use of_kinds::KindsTask;
pub use of_plans::PlanTask;
pub use of_scenarios::ScenarioTask;
pub use of_traces::TraceTask;
pub use outages::outage_by;
pub use searches::SearchTask;
pub use task::Task;

mod of_certificates;
mod of_kinds;
mod of_plans;
mod of_scenarios;
mod of_traces;
mod outages;
mod searches;
mod task;
