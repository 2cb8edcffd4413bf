//! Certificates of the greatest latency where messages are finished some time after their commit, as in groups that are
//! replicated by white box: what they say, the one text of each, and their checker. Whoever made a certificate, a yes means
//! that some run delivers its target so late, and none later.
#![tactic(auto)]

pub use checking::{check_finish, check_finish_text};
pub use finish_certificate::FinishCertificate;
pub use finish_refusal::FinishRefusal;
pub use finish_refused::FinishRefused;
pub use finish_text_fault::{FinishLine, FinishTextFault};
pub use reading::read_finish_certificate;
pub use refusal_lines::finish_refusal_line;
pub use writing::finish_certificate_text;

mod checking;
mod finish_certificate;
pub mod finish_check_laws;
mod finish_refusal;
mod finish_refused;
mod finish_text_fault;
mod reading;
mod refusal_lines;
mod writing;
