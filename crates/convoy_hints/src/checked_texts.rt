use convoy_hints_sketch::Hint;
use std::alloc::Global;

/// One of the two texts of a check against a scenario that is wanted.
#[derive(Clone, Copy, PartialEq, Eq)]
pub enum CheckedText {
    /// The scenario that is wanted.
    Scenario,
    /// The certificate.
    Certificate,
}

impl CheckedText {
    /// What it is called.
    fn words(self) -> &'static str {
        match self {
            CheckedText::Scenario => "the scenario of '--scenario'",
            CheckedText::Certificate => "the certificate",
        }
    }
}

/// The hint, a line `hint: ..`, with which of the two texts it is of: `hint: the certificate: ..`. None where there is
/// no hint.
pub fn hint_of_text(alloc: Global, text: CheckedText, hint: Option<String>) -> Hint {
    let Some(hint) = hint else {
        return Ok(None);
    };
    let words = text.words();
    let rest = hint
        .as_str()
        .strip_prefix("hint: ")
        .unwrap_or(hint.as_str());
    format!(in alloc; "hint: {words}: {rest}").map(Some)
}
