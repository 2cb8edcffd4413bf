ghost use Rattle.std.specs.Prelude.{◌≡◌};
ghost use Rattle.convoy_streams.specs.Jobs.{is_label_byte};

use arrayvec::ArrayVec;

/// How many bytes the label of a job has at most (docs/FORMATS.md, "Batch").
pub const LONGEST_LABEL: usize = 64;

/// The label of a job, or its front; empty where the job has none.
pub(crate) type Label = ArrayVec<u8, LONGEST_LABEL>;

/// Whether a label may have this byte: a character of ASCII that shows, and no space.
pub(crate) fn is_label_byte(byte: u8) -> bool
    ensures { result ≡ is_label_byte byte }
{
    b'!' <= byte && byte <= b'~'
}
