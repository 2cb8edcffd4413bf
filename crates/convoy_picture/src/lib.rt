//! What is drawn of a run, as plain values: each packet on its way, when each message is issued, what
//! happens at each group, and what the target waits for; what is told of that in words; and where all of it
//! stands: a sheet with an axis of time across it, a lane for each place where something happens, and rows of words
//! beside the lanes. Lengths are in tenths of a pixel. Of the sheet no more is proved than that the calls are safe
//! and end.
#![tactic(auto)]

pub use axis::{Axis, Numeral};
pub use flight::Flight;
pub use mark::{
    Mark, MarkKind, entry_label, entry_mark, issue_label, issue_mark, wait_label, wait_mark,
};
pub use picture::Picture;
pub use role::Role;
pub use scale::{Scale, Stretch};
pub use sheet::{AXIS, GAP, LEFT, MARGIN, Sheet, WIDTH, is_turned, lane_of};
pub use told::{answer_words, entry_words, flight_words, reason_words, receiver_of};
pub use widths::width_of;

mod axis;
mod flight;
mod mark;
mod picture;
mod role;
mod rows;
mod scale;
mod sheet;
mod told;
mod widths;
