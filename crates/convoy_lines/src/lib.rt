//! Words, lines and texts of lines: a reader, what writes them, and a text whose memory is taken beforehand.
#![tactic(auto)]

pub use labels::{begins_with, number_in, words_after};
pub use line_reader::LineReader;
pub use reserved::{RESERVED, ReservedText};
pub use words::{Words, number_of};
pub use writing::{push_further_word, push_number, push_number_line};

mod labels;
pub mod line_laws;
mod line_reader;
mod reserved;
mod words;
mod writing;
