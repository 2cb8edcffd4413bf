ghost use Rattle.std.specs.Prelude.{◌<◌, ◌≤◌, length, MatchResult, ◌≡◌};
ghost use Rattle.convoy_streams.specs.Devices.{Moved, Failed, HasRun};
ghost use Rattle.convoy_streams.specs.Reads.{ReadsText, StopsReading};
ghost use Rattle.convoy_streams.specs.declared.reading.ReadFault.TheVariants.{Memory};

use super::device::{DeviceFailed, Source};
use std::alloc::{AllocError, Global};
use thiserror::Error;

/// How many bytes are read at most in one call.
pub const BUFFER_LENGTH: usize = 65_536;

/// Why a source was not read to its end.
#[derive(Clone, Copy, Debug, PartialEq, Eq, Error)]
pub enum ReadFault {
    /// The source failed in its last read.
    #[error("the input could not be read")]
    Read,
    /// The source has more bytes than were asked for at most, which are that many.
    #[error("the input has more than {0} bytes")]
    TooLong(usize),
    /// As many reads as the caller allows were made, and the end was not seen.
    #[error("the input did not end within the reads that are allowed")]
    TooManyReads,
    /// Memory ran out, which says nothing of the input.
    #[error("out of memory")]
    Memory,
}

/// Reads a source to its end, in at most `most_reads` reads of at most [`BUFFER_LENGTH`] bytes each,
/// and answers its bytes.
///
/// `ReadFault::Read` where the source fails; `ReadFault::TooLong`, with `longest`, at the read that brings a byte
/// past that; `ReadFault::TooManyReads` where `most_reads` reads give bytes and none the end; and
/// `ReadFault::Memory` where memory runs out.
pub fn read_to_end<S: Source>(
    alloc: Global,
    source: &mut S,
    longest: usize,
    most_reads: u64,
) -> Result<Vec<u8>, ReadFault>
    ensures { HasRun S.reads source.old source.new (λ answers. (length answers ≤ most_reads)
        × MatchResult result (λ text. ReadsText longest answers text.items) (StopsReading longest most_reads answers)) }
{
    let mut text = Vec::new(alloc);
    let mut buffer = [0; BUFFER_LENGTH];
    for _ in 0..most_reads {
        let Ok(piece) = read_piece(source, &mut buffer) else {
            return Err(ReadFault::Read);
        };
        if piece.is_empty() {
            return Ok(text);
        }
        if piece.len() > longest - text.len() {
            return Err(ReadFault::TooLong(longest));
        }
        text.extend_from_slice(piece)?;
    }
    Err(ReadFault::TooManyReads)
}

/// Makes one read, and answers the front of the buffer that it filled. None are the end of the source.
/// The buffer has room for a byte at least, and `DeviceFailed` is that of the source.
pub fn read_piece<'a, S: Source>(
    source: &mut S,
    buffer: &'a mut [u8],
) -> Result<&'a [u8], DeviceFailed>
    requires { 0 < length buffer.old }
    ensures { MatchResult result (λ piece. S.reads source.old (Moved piece.now) source.new)
        (λ _. S.reads source.old Failed source.new) }
{
    let count = source.read(buffer)?;
    Ok(&buffer[..count])
}

impl From<AllocError> for ReadFault {
    ghost from_gives = { λ _ fault. fault ≡ Memory };

    fn from(_error: AllocError) -> Self {
        ReadFault::Memory
    }
}
