//! Texts of the form of a certificate of finishes, and the certificate in them.

ghost use Rattle.std.specs.Prelude.{◌≡◌};
ghost use Rattle.convoy_finish_replies.specs.FinishForms.{is_finish_certificate, scenario_text};

use convoy_workflow_replies::{run_text, told_text};

/// The first line of certificates of finishes.
const FIRST_LINE: &[u8] = b"convoy finish 1\n";

/// Whether a text begins with the first line of certificates of finishes (docs/FORMATS.md, "Certificates of finishes").
pub fn is_finish_certificate(text: &[u8]) -> bool
    ensures { result ≡ is_finish_certificate text.now }
{
    text.starts_with(FIRST_LINE)
}

/// The text of which a scenario is told, and its schedule: of a certificate of finishes the certificate in it, and else as
/// of a certificate of a workflow ([`told_text`]).
pub fn scenario_text(text: &[u8]) -> &[u8]
    ensures { result.now ≡ scenario_text text.now }
{
    if is_finish_certificate(text) {
        run_text(text)
    } else {
        told_text(text)
    }
}
