//! The laws of how times are told. Each is the one clause of a function that does nothing; a caller that needs the law
//! calls the function.

ghost use Rattle.convoy_times.specs.TimeLaws.{TimesAreDecimals, TimesAreReadBack};

/// What is told, with its unit after a space, is read as the duration that it is: nothing is rounded.
pub fn times_are_read_back()
    ensures { TimesAreReadBack }
{}

/// What is told is a decimal number, with no needless zero at its head or at its end.
pub fn times_are_decimals()
    ensures { TimesAreDecimals }
{}
