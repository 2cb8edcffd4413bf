//! Certificates of plans, made: of the best choice of a plan, with reasons why no other choice is better. The checker says yes
//! to each that is handed out, so that nothing rests on how it was made.
#![tactic(auto)]

pub use answering::plan_proof_answer;
pub use proving::{PlanProof, prove_plan};

mod answering;
mod claim;
mod excluding;
mod late;
mod listing;
mod proving;
mod seeking;
mod shown;
mod tree;
mod witnessing;
