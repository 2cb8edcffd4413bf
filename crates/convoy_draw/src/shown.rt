ghost use Rattle.std.specs.Prelude.{◌≡◌, ◌++◌, IfOk, string_bytes};
ghost use Rattle.convoy_draw.specs.Shown.{place, shown};

use std::alloc::{AllocError, Global};

/// Words at a place of an image, so far to the right and so far down.
pub(crate) fn placed_words(
    alloc: Global,
    across: u32,
    down: u32,
    words: &str,
) -> Result<String, AllocError>
    ensures { IfOk result (λ text. string_bytes text ≡ shown (place across down) words.now) }
{
    format!(in alloc; "<text x=\"{across}\" y=\"{down}\">{words}</text>\n")
}

/// Words at a place of an image, of such a size.
pub(crate) fn sized_words(
    alloc: Global,
    across: u32,
    down: u32,
    size: &str,
    words: &str,
) -> Result<String, AllocError>
    ensures { IfOk result (λ text. string_bytes text ≡ shown (place across down ++ size.now) words.now) }
{
    format!(in alloc; "<text x=\"{across}\" y=\"{down}\"{size}>{words}</text>\n")
}
