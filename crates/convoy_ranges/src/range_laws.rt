//! The laws of ranges. Each is the one clause of a function that does nothing; a caller that needs the law calls the
//! function.

ghost use Rattle.convoy_ranges.specs.RangeLaws.{RangesAreSafe, TimesAreRead};

use convoy_times::time_laws::times_are_read_back;

/// Each range that is written may be that of a link, its least is no more than a signal takes for the distance, and no
/// packet takes more than its most of which the round trip is within the greatest that the table tells of the pair, with
/// the margin, if the way back takes the least or more. The greatest is no less than any round trip that the table tells
/// of the pair, and the distance that counts no greater than any.
pub fn ranges_are_safe()
    ensures { RangesAreSafe }
{}

/// Each time that is written is read as the duration that it is: nothing is rounded once it is a number of ticks.
#[tactic(auto, unfolding(crate::specs::Texts::told))]
pub fn times_are_read()
    ensures { TimesAreRead }
{
    times_are_read_back();
}
