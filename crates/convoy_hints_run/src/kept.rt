//! What is written, with what a hint needs to know of it.

use std::io;
use std::io::{Error, Write};

/// A writer that knows why it failed.
#[derive(Drop)]
pub struct KeptWriter<W> {
    writer: W,
    failure: Option<Error>,
}

impl<W> KeptWriter<W> {
    /// The writer, to which nothing was written yet.
    pub fn new(writer: W) -> Self {
        KeptWriter {
            writer,
            failure: None,
        }
    }

    /// Why the last write that failed did.
    pub fn failure(&self) -> Option<Error> {
        self.failure
    }
}

impl<W: Write> Write for KeptWriter<W> {
    ghost contents = { λ kept. W.contents kept.writer };

    fn write(&mut self, bytes: &[u8]) -> io::Result<usize> {
        let result = self.writer.write(bytes);
        if let Err(error) = &result {
            self.failure = Some(*error);
        }
        result
    }

    fn flush(&mut self) -> io::Result<()> {
        self.writer.flush()
    }
}
