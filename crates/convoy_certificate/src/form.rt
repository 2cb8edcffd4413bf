ghost use Rattle.std.specs.Prelude.{◌≡◌};
ghost use Rattle.convoy_draft.specs.Names.{is_digit};
ghost use Rattle.convoy_certificate.specs.TextForms.{form_of};

use super::certificate_lines::version_in;
use super::version::Version;
use convoy_lines::begins_with;

/// What a text is, by its first line.
#[derive(Clone, Copy, PartialEq, Eq)]
pub enum Form {
    /// The text is of the form of a certificate, and of this version; None where its first line names no
    /// version that is read.
    Certificate(Option<Version>),
    /// The text is of another form: no certificate, but maybe a scenario.
    Other,
}

/// What a text is: of the form of a certificate where its first line is the word `convoy` and a digit,
/// as in certificates; no scenario begins so (docs/FORMATS.md, "Commands").
#[tactic(auto, unfolding(crate::specs::TextForms::form_of, crate::specs::TextForms::is_certificate_text))]
pub fn form_of(text: &[u8]) -> Form
    ensures { result ≡ form_of text.now }
{
    if text.len() >= 9 && begins_with(text, b"convoy") && is_digit(text[7]) && text[8] == b'\n' {
        Form::Certificate(version_in(&text[..8]))
    } else {
        Form::Other
    }
}

fn is_digit(byte: u8) -> bool
    ensures { result ≡ is_digit byte }
{
    b'0' <= byte && byte <= b'9'
}
