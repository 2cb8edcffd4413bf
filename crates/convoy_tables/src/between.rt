//! Pieces of text with something between them.

ghost use Rattle.std.specs.Prelude.{◌≡◌, ◌++◌, OnOk};
ghost use Rattle.convoy_tables.specs.Formats.{before};

use std::alloc::AllocError;

/// Appends what stands before the piece of that number.
pub(crate) fn push_before(i: usize, between: &[u8], out: &mut Vec<u8>) -> Result<(), AllocError>
    ensures { OnOk result (out.new.items ≡ out.old.items ++ before i between.now) }
{
    if i == 0 {
        return Ok(());
    }
    out.extend_from_slice(between)
}
