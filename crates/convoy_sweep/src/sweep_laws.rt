//! The laws of the rows of a sweep. Each is the one clause of a function that does nothing; a caller that needs the law
//! calls the function.

ghost use Rattle.convoy_sweep.specs.SweepLaws.{RowsEnclose, RowsTellTheirWindows};

use convoy_laws::windows::{some_time_in_window_is_as_late, times_in_window_are_no_slower};

/// The two numbers of a row enclose the greatest latency of the scenario that the text makes where the keys have the
/// values of the row, also where the search did not end: some schedule has the least, and none has a latency above the
/// most.
pub fn rows_enclose()
    ensures { RowsEnclose }
{}

/// The two numbers of a row are those of all times in a window: with the message issued at any one of them none has a latency
/// above the most, and with it issued at one of them some schedule has the least. So of an envelope the greatest latency that
/// a row tells is the greatest of those of the times in its window.
pub fn rows_tell_their_windows()
    ensures { RowsTellTheirWindows }
{
    times_in_window_are_no_slower();
    some_time_in_window_is_as_late();
}
