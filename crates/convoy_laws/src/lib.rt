//! Laws alone, with no code: one scenario in ticks and in finer ones, of which in real time no finer run is later than
//! the latest in whole ticks; boxes inside other boxes: the narrower a box, the lower its bounds, and leads close it for no
//! fewer latencies; and windows, each of which is as bad as the worst time in it.
#![tactic(auto)]

pub mod finer;
pub mod monotone;
pub mod windows;
