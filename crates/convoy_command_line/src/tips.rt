use std::alloc::{AllocError, Global};

/// How a line begins that tells how to name a file as an option is named, which nobody means who mistakes an option.
const TIP: &str = "  tip: to pass '";

/// The text that tells why words are rejected, without such a line.
pub fn without_tip(alloc: Global, text: &str) -> Result<String, AllocError> {
    let mut kept = String::new(alloc);
    let mut was_empty = false;
    for line in text.lines() {
        let is_empty = line.is_empty();
        if line.starts_with(TIP) || (is_empty && was_empty) {
            continue;
        }
        kept.push_str(line)?;
        kept.push_str("\n")?;
        was_empty = is_empty;
    }
    Ok(kept)
}
