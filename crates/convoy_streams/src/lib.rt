//! Streams of bytes: where texts come from and go to, over devices that may fail, the jobs that one stream holds, and
//! what the program reads: standard input, or files that are opened by their names.
#![tactic(auto)]

pub use device::{DeviceFailed, Sink, Source};
pub use holding::{Held, hold_closed};
pub use input::{InputReader, Opener, open_input};
pub use kept::KeptReader;
pub use label::LONGEST_LABEL;
pub use reading::{BUFFER_LENGTH, ReadFault, read_piece, read_to_end};
pub use source::{InputSource, source_of};
pub use splitter::{JobFault, Splitter};
pub use stream::{StreamSink, StreamSource};
pub use writing::write_all;

mod device;
mod holding;
mod input;
mod kept;
mod label;
mod line;
mod reading;
mod source;
mod splitter;
mod stream;
pub mod stream_laws;
mod writing;
