//! Certificates of plans: that a choice of a plan, a placement of its groups and an order of them, is the best one. What they
//! say, and the one text of each: a writer and a reader.
#![tactic(auto)]

pub use branch::{Branch, Witness};
pub use plan_certificate::PlanCertificate;
pub use plan_text_fault::{PlanLine, PlanTextFault};
pub use reading::read_plan_certificate;
pub use writing::plan_certificate_text;

mod branch;
mod plan_certificate;
mod plan_text_fault;
mod reading;
mod schedules;
mod writing;
