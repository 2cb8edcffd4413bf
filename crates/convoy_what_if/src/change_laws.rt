//! The laws of the rows. Each is the one clause of a function that does nothing; a caller that needs the law
//! calls the function.

ghost use Rattle.convoy_what_if.specs.ChangeLaws.{RowsAreInOrder, RowsAreLatencies, RowsEnclose};

/// The rows have all the changes, each tried, and none saves more than one before it.
pub fn rows_are_in_order()
    ensures { RowsAreInOrder }
{}

/// The number of a row is that which `latency` answers for the scenario that its change makes.
pub fn rows_are_latencies()
    ensures { RowsAreLatencies }
{}

/// The two numbers of a row enclose the greatest latency of the scenario that its change makes, also where the search
/// did not end: some schedule has the least, and none has a latency above the most.
pub fn rows_enclose()
    ensures { RowsEnclose }
{}
