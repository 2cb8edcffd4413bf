//! The digest of a scenario.

ghost use Rattle.convoy_report.specs.Runs.{GivesDigest};

use convoy_commands::{Fault, Telling, tell};
use sha2::{Digest, Sha256};
use std::alloc::Global;

/// The SHA-256 of what `scenario` writes for a text, in hexadecimal digits; none where it has none to write, as for a
/// text that names no target. Fails with `Fault::Memory`, and else never.
pub(crate) fn digest_of(alloc: Global, text: &[u8]) -> Result<Option<String>, Fault>
    ensures { GivesDigest text.now result }
{
    match tell(alloc, Telling::Toml, text) {
        Ok(told) => {
            let digest = Sha256::digest(told.text.as_slice());
            Ok(Some(hex::encode(alloc, digest.as_slice())?))
        }
        Err(Fault::Memory) => Err(Fault::Memory),
        Err(_) => Ok(None),
    }
}
