ghost use Rattle.std.specs.Prelude.{◌<◌, length, MatchResult};
ghost use Rattle.convoy_streams.specs.Devices.{Failed, HasRun};
ghost use Rattle.convoy_streams.specs.Writes.{WritesAll, FailsWithin, WritesPiece};

use super::device::{DeviceFailed, Sink};

/// Writes a text, in as many calls as the sink needs. Where the sink fails, or takes none of the
/// bytes offered, a front of the text has gone out.
pub fn write_all<K: Sink>(sink: &mut K, text: &[u8]) -> Result<(), DeviceFailed>
    ensures { HasRun K.writes sink.old sink.new
        (λ answers. MatchResult result (λ _. WritesAll text.now answers) (λ _. FailsWithin text.now answers)) }
{
    let mut rest = text;
    while !rest.is_empty() {
        rest = write_piece(sink, rest)?;
    }
    Ok(())
}

/// One write. It answers the bytes that are left.
fn write_piece<'a, K: Sink>(sink: &mut K, bytes: &'a [u8]) -> Result<&'a [u8], DeviceFailed>
    requires { 0 < length bytes.now }
    ensures { MatchResult result (λ rest. WritesPiece K.writes sink.old bytes.now rest.now sink.new)
        (λ _. K.writes sink.old Failed sink.new) }
{
    let count = sink.write(bytes)?;
    if count == 0 {
        return Err(DeviceFailed);
    }
    Ok(&bytes[count..])
}
