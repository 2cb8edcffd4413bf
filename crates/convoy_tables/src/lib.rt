//! Tables of words and numbers, and how they are written: with aligned columns, as CSV, as JSON and as
//! HTML.
#![tactic(auto)]

pub use cell::{Cell, Kind};
pub use format::Format;
pub use html::push_escaped;
pub use table::{Row, Table};
pub use writing::table_text;

mod aligning;
mod between;
mod cell;
mod format;
mod html;
mod lines;
mod objects;
mod records;
mod table;
pub mod table_laws;
mod writing;
