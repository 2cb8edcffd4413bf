ghost use Rattle.std.specs.Prelude.{option_map};
ghost use Rattle.convoy_streams.specs.Sources.{IsSource};

use super::input::{InputReader, Opener, open_input};
use super::kept::KeptReader;
use crate::StreamSource;
use std::alloc::Global;
use std::io::Stdin;

/// A source that reads an input, and keeps the first bytes.
pub type InputSource<F> = StreamSource<KeptReader<InputReader<F>>>;

/// A source that reads the file of that name, or standard input where there is none. A file that cannot be opened is
/// one whose first read fails.
pub fn source_of<R: Opener>(
    rt: &R,
    alloc: Global,
    stdin: Stdin,
    file: Option<&str>,
) -> InputSource<R::File>
    ensures { IsSource R.opens (option_map (λ text. text.now) file.entry) result }
{
    StreamSource {
        reader: KeptReader::new(alloc, open_input(rt, stdin, file)),
    }
}
