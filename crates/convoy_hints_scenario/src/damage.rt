use super::inputs::is_meant_as_certificate;
use convoy_hints_sketch::{Hint, spot_at};
use std::alloc::{AllocError, Global};

/// What has happened to a text on its way, a scenario or a certificate: a byte order mark, the marks of a
/// mail, or carriage returns in a certificate. The label of a hint is not in it. None where none of these
/// is there.
pub fn hint_for_damage(alloc: Global, text: &[u8]) -> Hint {
    let hint = if text.starts_with(&[0xEF, 0xBB, 0xBF]) {
        "the input begins with a byte order mark: take its first three bytes away"
    } else if text.starts_with(b"> ") || text.starts_with(b">convoy") {
        "the input begins with '>', the mark of a mail that is answered: take the marks away"
    } else if is_meant_as_certificate(text) && has_carriage_returns(text) {
        "the lines of the certificate end with a carriage return, as a mail or an editor writes them: each is to end with byte 10 alone"
    } else {
        return Ok(None);
    };
    String::from_str(alloc, hint).map(Some)
}

/// Where the bytes of a text are not UTF-8, after the first `offset` of them, which are: the line, from 1.
/// The label of a hint is not in it.
pub fn hint_for_bytes(alloc: Global, text: &[u8], offset: usize) -> Result<String, AllocError> {
    if text.starts_with(&[0xFF, 0xFE]) || text.starts_with(&[0xFE, 0xFF]) {
        return String::from_str(
            alloc,
            "the input is UTF-16, as some editors write it: save it as UTF-8",
        );
    }
    let line = spot_at(text, offset).line;
    if offset == 1 {
        return format!(in alloc; "the input is not UTF-8 after its first byte, in line {line}");
    }
    format!(in alloc; "the input is not UTF-8 after its first {offset} bytes, in line {line}")
}

/// Whether the first line ends with a carriage return.
fn has_carriage_returns(text: &[u8]) -> bool {
    let mut last = 0;
    for byte in text {
        if *byte == b'\n' {
            break;
        }
        last = *byte;
    }
    last == b'\r'
}
