//! How the greatest latency changes with a key of a scenario text, or with two: a table with a row for each value,
//! or a curve over the values of one.
#![tactic(auto)]

pub use answering::sweep_answer;
pub use changing::with_key;
pub use convoy_tables::Format;
pub use curve_answering::curve_answer;
pub use fault::{SettingFault, SweepFault, UnreadSetting};
pub use kinds::{Given, LAST_TICK, MOST_ROWS, Point, Setting, Sweep, SweepKey, Swept};
pub use preparing::{Made, Prepared, prepare};
pub use rows::sweep_rows;
pub use telling::{curve_told, sweep_told};

mod answering;
mod cells;
mod changing;
mod columns;
mod copying;
mod curve_answering;
mod curves;
mod fault;
mod keys;
mod kinds;
mod points;
mod preparing;
mod reading;
mod rows;
pub mod sweep_laws;
mod table;
mod telling;
mod values;
