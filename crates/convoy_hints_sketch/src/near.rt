use std::alloc::{AllocError, Global};
use strsim::osa_distance;

/// How many edits lead to a near word at most: a letter more, less or another, or two letters swapped.
const MOST_EDITS: usize = 2;

/// A word with more bytes than this is near to none.
const LONGEST_WORD: usize = 64;

/// The word that was most likely meant: the first of those to which the fewest edits lead from the one
/// that is written, at most two, and one for three letters.
pub fn nearest<'a>(
    alloc: Global,
    written: &str,
    words: &[&'a str],
) -> Result<Option<&'a str>, AllocError> {
    if written.len() > LONGEST_WORD {
        return Ok(None);
    }
    let mut best = None;
    let mut fewest = MOST_EDITS.saturating_add(1);
    for word in words {
        let edits = osa_distance(alloc, written, word)?;
        let longer = written.len().max(word.len());
        if edits < fewest && edits.saturating_mul(3) <= longer {
            best = Some(*word);
            fewest = edits;
        }
    }
    Ok(best)
}
