//! Texts made of pieces.

ghost use Rattle.std.specs.Prelude.{◌≡◌, ◌++◌, IfOk, OnOk};
ghost use Rattle.std.specs.List.{flat_map};
ghost use Rattle.convoy_tables.specs.Formats.{escaped};
ghost use Rattle.convoy_report.specs.Pages.{title_text};

use convoy_scenario::Scenario;
use convoy_scenario::naming::{group_name, message_name};
use convoy_tables::push_escaped;
use std::alloc::{AllocError, Global};

/// Appends pieces, one after the other.
pub(crate) fn push_pieces(pieces: &[&[u8]], out: &mut Vec<u8>) -> Result<(), AllocError>
    ensures { OnOk result (out.new.items ≡ out.old.items ++ flat_map (λ piece. piece.now) pieces.now) }
{
    for piece in pieces {
        out.extend_from_slice(*piece)?;
    }
    Ok(())
}

/// A text as HTML shows it.
pub(crate) fn escaped(alloc: Global, text: &[u8]) -> Result<Vec<u8>, AllocError>
    ensures { IfOk result (λ shown. shown.items ≡ escaped text.now) }
{
    let mut shown = Vec::new(alloc);
    push_escaped(text, &mut shown)?;
    Ok(shown)
}

/// A message at a group by their names, as HTML shows them.
pub(crate) fn title(
    alloc: Global,
    scenario: &Scenario,
    message: usize,
    group: usize,
) -> Result<Vec<u8>, AllocError>
    ensures { IfOk result (λ title. title.items ≡ title_text scenario.now message group) }
{
    let message = escaped(alloc, message_name(scenario, message).as_bytes())?;
    let group = escaped(alloc, group_name(scenario, group).as_bytes())?;
    let mut title = Vec::new(alloc);
    push_pieces(&[&message, b" at ", &group], &mut title)?;
    Ok(title)
}
