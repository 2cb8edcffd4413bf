use super::finish_refused::FinishRefused;
use super::finish_text_fault::FinishTextFault;

/// Why the text of a certificate of finishes is refused. Memory that ran out is told by both, and says nothing of the text.
#[derive(Clone, Copy)]
pub enum FinishRefusal {
    /// The text is that of no certificate of finishes.
    Text(FinishTextFault),
    /// It is that of a certificate, which is not valid.
    Check(FinishRefused),
}
