//! What always holds of certificates: functions that do nothing, and whose contracts are the laws.

ghost use Rattle.convoy_certificate.specs.CertificateLaws.{TextsDiffer, TextsAreRead, TextsAreShort, TextsAreKept};

use convoy_scenario_lines::scenario_line_laws::{
    scenario_lines_are_lines, scenarios_are_their_lines,
};

/// Two certificates with one text are equal.
pub fn texts_differ()
    ensures { TextsDiffer }
{
    scenario_lines_are_lines();
    scenarios_are_their_lines();
}

/// The text of a certificate with no more nodes than may be read is read as that certificate.
pub fn texts_are_read()
    ensures { TextsAreRead }
{
    scenario_lines_are_lines();
    scenarios_are_their_lines();
}

/// The text of a certificate with no more nodes than may be read has at most `LONGEST_TEXT` bytes.
pub fn texts_are_short()
    ensures { TextsAreShort }
{}

/// A certificate that is read from a text has this text, and no more nodes than may be read.
pub fn texts_are_kept()
    ensures { TextsAreKept }
{
    scenarios_are_their_lines();
}
