use std::alloc::Global;
use std::io;
use std::io::{Error, Read};

/// How many bytes of the input are kept at most: a scenario and more, and the lines of a certificate
/// before its tree.
const MOST_KEPT: usize = 131_072;

/// A reader, with a copy of the first bytes that it gave.
#[derive(Drop)]
pub struct KeptReader<R> {
    reader: R,
    text: Vec<u8>,
    is_read: bool,
    is_whole: bool,
    failure: Option<Error>,
}

impl<R> KeptReader<R> {
    ghost use Rattle.std.specs.Prelude.{◌≡◌};

    /// The reader, of which nothing was read yet.
    pub fn new(alloc: Global, reader: R) -> Self
        ensures { result.reader ≡ reader }
    {
        KeptReader {
            reader,
            text: Vec::new(alloc),
            is_read: false,
            is_whole: true,
            failure: None,
        }
    }

    /// The first bytes that were read: as many as are kept, and fewer where memory ran out.
    pub fn text(&self) -> &[u8] {
        self.text.as_slice()
    }

    /// Whether a read was tried.
    pub fn is_read(&self) -> bool {
        self.is_read
    }

    /// Whether that is all that was read.
    pub fn is_whole(&self) -> bool {
        self.is_whole
    }

    /// Why the last read that failed did.
    pub fn failure(&self) -> Option<Error> {
        self.failure
    }
}

impl<R: Read> Read for KeptReader<R> {
    ghost remaining = { λ kept. R.remaining kept.reader };

    fn read(&mut self, buffer: &mut [u8]) -> io::Result<usize> {
        self.is_read = true;
        let result = self.reader.read(buffer);
        match &result {
            Ok(count) => {
                if self.is_whole {
                    self.is_whole = keep(&mut self.text, &buffer[..*count]);
                }
            }
            Err(error) => self.failure = Some(*error),
        }
        result
    }
}

/// Keeps bytes, up to `MOST_KEPT` in all, and answers whether there was room for all.
fn keep(text: &mut Vec<u8>, bytes: &[u8]) -> bool {
    let room = MOST_KEPT.saturating_sub(text.len());
    let count = room.min(bytes.len());
    text.extend_from_slice(&bytes[..count]).is_ok() && count == bytes.len()
}
