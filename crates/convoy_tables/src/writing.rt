ghost use Rattle.std.specs.Prelude.{◌≡◌, IfOk};
ghost use Rattle.convoy_tables.specs.Formats.{table_text};

use super::aligning::widths_of;
use super::format::Format;
use super::html::html_of;
use super::lines::lines_of;
use super::objects::array_of;
use super::records::records_of;
use super::table::Table;
use std::alloc::{AllocError, Global};

/// The text of a table in a format (docs/FORMATS.md, "Tables"). Fails where memory runs out, and else never.
pub fn table_text(alloc: Global, table: &Table, format: Format) -> Result<Vec<u8>, AllocError>
    ensures { IfOk result (λ text. text.items ≡ table_text format table.now) }
{
    match format {
        Format::Text => lines_of(alloc, table, &widths_of(alloc, table)?),
        Format::Csv => records_of(alloc, table),
        Format::Json => array_of(alloc, table),
        Format::Html => html_of(alloc, table),
    }
}
