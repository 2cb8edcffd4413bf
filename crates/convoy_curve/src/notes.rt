//! What the marks stand for, in words below them.

use super::curve::Dot;
use super::sheet::{BOTTOM, LEFT};
use convoy_scenario::AllocResult;
use std::alloc::Global;

/// What a mark says of one value.
const OF_VALUE: &str =
    "each mark is the greatest latency with one value; nothing is said of what lies between two values";

/// What a bar says of the values of a window.
const OF_WINDOW: &str =
    "each bar is the greatest latency of all times of issue from its left end to its right";

/// What a pale bar says.
const PALE: &str =
    "a pale bar goes from the least to the most that it may be, where the search did not end";

/// What the marks of these values stand for.
pub(crate) fn notes(alloc: Global, dots: &[Dot]) -> AllocResult<String> {
    let (first, second) = (BOTTOM + 820, BOTTOM + 1_050);
    let meaning = if has_window(dots) {
        OF_WINDOW
    } else {
        OF_VALUE
    };
    let pale = if has_open(dots) { PALE } else { "" };
    format!(in alloc;
        "<g fill=\"#444444\"><text x=\"{LEFT}\" y=\"{first}\">{meaning}</text><text x=\"{LEFT}\" y=\"{second}\">{pale}</text></g>\n"
    )
}

/// Whether one of them is of a window.
fn has_window(dots: &[Dot]) -> bool {
    dots.iter().any(|dot| dot.last.is_some())
}

/// Whether the least that one may be is not the most.
fn has_open(dots: &[Dot]) -> bool {
    dots.iter().any(|dot| dot.least != dot.most)
}
