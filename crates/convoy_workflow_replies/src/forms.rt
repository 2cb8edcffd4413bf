//! Texts of the form of a certificate of a workflow, and the certificate in them.

ghost use Rattle.std.specs.Prelude.{◌≡◌};
ghost use Rattle.convoy_certificate.specs.TextForms.{is_certificate_text};
ghost use Rattle.convoy_workflow_replies.specs.WorkflowForms.{is_workflow_certificate, run_text, told_text};

use convoy_certificate::{Form, form_of};

/// The first line of certificates of workflows.
const FIRST_LINE: &[u8] = b"convoy workflow 1\n";

/// Whether a text begins with the first line of certificates of workflows (docs/FORMATS.md, "Certificates of workflows").
pub fn is_workflow_certificate(text: &[u8]) -> bool
    ensures { result ≡ is_workflow_certificate text.now }
{
    text.starts_with(FIRST_LINE)
}

/// What stands from the first line on that is the word `convoy` and a digit, the first of a certificate; nothing where
/// there is no such line.
pub fn run_text(text: &[u8]) -> &[u8]
    ensures { result.now ≡ run_text text.now }
{
    let mut begins = true;
    let mut rest = text;
    while let Some((byte, tail)) = rest.split_first() {
        if begins && is_certificate(rest) {
            return rest;
        }
        begins = *byte == b'\n';
        rest = tail;
    }
    rest
}

/// Whether a text is of the form of a certificate.
#[tactic(auto, unfolding(convoy_certificate::specs::TextForms::form_of))]
fn is_certificate(text: &[u8]) -> bool
    ensures { result ≡ is_certificate_text text.now }
{
    match form_of(text) {
        Form::Certificate(_) => true,
        Form::Other => false,
    }
}

/// The text of which a run is told: of a certificate of a workflow the certificate in it ([`run_text`]), and else the text
/// itself.
pub fn told_text(text: &[u8]) -> &[u8]
    ensures { result.now ≡ told_text text.now }
{
    if is_workflow_certificate(text) {
        run_text(text)
    } else {
        text
    }
}
