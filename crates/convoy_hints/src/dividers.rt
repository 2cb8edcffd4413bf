//! Lines that are nearly ones that divide the jobs of a batch.

use convoy_hints_sketch::{Hint, noun};
use convoy_streams::LONGEST_LABEL;
use std::alloc::{AllocError, Global};

/// Which line of a text is nearly one that divides jobs, and what it has for which it is none. Lines are
/// counted from 1. None where there is no such line.
pub(crate) fn hint_for_dividers(alloc: Global, text: &[u8]) -> Hint {
    let mut first = None;
    let mut others: usize = 0;
    for (before, line) in text.split(|byte| *byte == b'\n').enumerate() {
        if let Some(flaw) = flaw_of(line) {
            if first.is_none() {
                first = Some((before, flaw));
            } else {
                others = others.saturating_add(1);
            }
        }
    }
    let Some((before, flaw)) = first else {
        return Ok(None);
    };
    let line = before.saturating_add(1);
    let hint = format!(in alloc;
        "line {line} {flaw}, and so divides nothing: between two scenarios stands '---' alone, or '--- NAME'"
    )?;
    Ok(Some(with_others(alloc, hint, others)?))
}

/// The hint, and how many more lines divide nothing.
fn with_others(alloc: Global, hint: String, others: usize) -> Result<String, AllocError> {
    if others == 0 {
        return Ok(hint);
    }
    let divide = noun(others == 1, "line divides", "lines divide");
    format!(in alloc; "{hint}; {others} more {divide} nothing")
}

/// What a line has for which it does not divide jobs, where it was to; None for one that divides them, and for
/// any other line.
fn flaw_of(line: &[u8]) -> Option<&'static str> {
    let spaces = line.iter().position(|byte| !is_space(*byte))?;
    let after = line.get(spaces..)?.strip_prefix(b"---".as_slice())?;
    if after.contains(&b'=') {
        // A key of TOML may begin with dashes.
        return None;
    }
    if spaces > 0 {
        Some("begins with a space before its '---'")
    } else if after.is_empty() {
        None
    } else if after.starts_with(b"-".as_slice()) {
        Some("has more than three dashes")
    } else if after.ends_with(b"\r".as_slice()) {
        Some("has a carriage return after its '---'")
    } else if after.last().is_some_and(|byte| is_space(*byte)) {
        Some("has a space at its end, after its '---'")
    } else if let Some(name) = after.strip_prefix(b" ".as_slice()) {
        flaw_of_name(name)
    } else {
        Some("has no space between its '---' and a name")
    }
}

const _: () = prove!(LONGEST_LABEL == 64);

/// What is wrong with what stands after `--- `; None where it is a label.
fn flaw_of_name(name: &[u8]) -> Option<&'static str> {
    if name.first().is_some_and(|byte| is_space(*byte)) {
        Some("has more than one space after its '---'")
    } else if name.iter().any(|byte| is_space(*byte)) {
        Some("has more than one word after its '---'")
    } else if name.len() > LONGEST_LABEL {
        Some("has a name of more than 64 bytes")
    } else if !name.iter().all(|byte| byte.is_ascii_graphic()) {
        Some("has a name with other characters than those of ASCII that show")
    } else {
        None
    }
}

fn is_space(byte: u8) -> bool {
    byte == b' ' || byte == b'\t'
}
