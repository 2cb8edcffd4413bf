//! The image of a sweep: the greatest latency with each value of a key, as steps, with axes and the deadline. Of where
//! all of it stands no more is proved than that the calls are safe and end.
#![tactic(auto)]

pub use curve::{Curve, Dot};
pub use drawing::write_curve;

mod axes;
mod curve;
mod drawing;
mod marks;
mod notes;
mod rounding;
mod sheet;
mod told;
