ghost use Rattle.std.specs.Prelude.{◌<◌, length};
ghost use Rattle.std.specs.Io.{ReadsAtMost, WritesAtMost};
ghost use Rattle.std.specs.Io.KnownBytes.{ReadConsumes, WriteAppends};

use super::device::{DeviceFailed, Sink, Source};
use std::io::{ErrorKind, Read, Write};

/// How often a call that the system interrupts is tried again.
const MOST_TRIES: u32 = 1_000;

/// A reader of the standard library as a source. A read that the system interrupts is no failure of
/// the device: it is tried again, a bounded number of times, and counts as one read. No clause says why
/// the reader failed where it did, since none can say what a file or a terminal does.
#[derive(Drop)]
pub struct StreamSource<R> {
    /// The reader. Each read of the source reads from it.
    pub reader: R,
}

impl<R: Read> Source for StreamSource<R> {
    ghost use Rattle.convoy_streams.specs.Streams.{StreamReads};

    ghost reads = { λ old answer new. StreamReads (R.remaining old.reader) answer (R.remaining new.reader) };

    fn read(&mut self, buffer: &mut [u8]) -> Result<usize, DeviceFailed> {
        read_retrying(&mut self.reader, buffer)
    }
}

/// A writer of the standard library as a sink. A write that the system interrupts is tried again, as
/// a read of a [`StreamSource`] is.
#[derive(Drop)]
pub struct StreamSink<W> {
    /// The writer. Each write of the sink writes to it.
    pub writer: W,
}

impl<W: Write> Sink for StreamSink<W> {
    ghost use Rattle.convoy_streams.specs.Streams.{StreamWrites};

    ghost writes = { λ old answer new. StreamWrites (W.contents old.writer) answer (W.contents new.writer) };

    fn write(&mut self, bytes: &[u8]) -> Result<usize, DeviceFailed> {
        write_retrying(&mut self.writer, bytes)
    }
}

fn read_retrying<R: Read>(reader: &mut R, buffer: &mut [u8]) -> Result<usize, DeviceFailed>
    requires { 0 < length buffer.old }
    ensures within { ReadsAtMost result buffer.new }
    ensures bytes { ReadConsumes (R.remaining reader.old) (R.remaining reader.new) result buffer.new }
{
    for _ in 0..MOST_TRIES {
        match reader.read(buffer) {
            Ok(count) => return Ok(count),
            Err(error) if error.kind() == ErrorKind::Interrupted => {}
            Err(_) => return Err(DeviceFailed),
        }
    }
    Err(DeviceFailed)
}

fn write_retrying<W: Write>(writer: &mut W, bytes: &[u8]) -> Result<usize, DeviceFailed>
    ensures within { WritesAtMost result bytes.now }
    ensures bytes { WriteAppends (W.contents writer.old) (W.contents writer.new) result bytes.now }
{
    for _ in 0..MOST_TRIES {
        match writer.write(bytes) {
            Ok(count) => return Ok(count),
            Err(error) if error.kind() == ErrorKind::Interrupted => {}
            Err(_) => return Err(DeviceFailed),
        }
    }
    Err(DeviceFailed)
}
