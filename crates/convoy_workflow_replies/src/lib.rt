//! What is answered of texts of certificates of workflows: whether one is valid, why its time is what it is, and an image of
//! its run; and what a certificate is to be of.
#![tactic(auto)]

pub use asking::ask_workflow;
pub use checking::{check_of_other, check_workflow_answer};
pub use forms::{is_workflow_certificate, run_text, told_text};
pub use reference::Reference;

mod asking;
mod checking;
mod comparing;
mod explaining;
mod forms;
mod reference;
