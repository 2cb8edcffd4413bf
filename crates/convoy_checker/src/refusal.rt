use super::refused::Refused;
use convoy_certificate::TextFault;

/// Why a certificate is refused. Memory that ran out is told by both, and says nothing of the certificate.
#[derive(Clone, Copy)]
pub enum Refusal {
    /// The text is that of no certificate.
    Text(TextFault),
    /// The text is that of a certificate, which is not valid.
    Check(Refused),
}
