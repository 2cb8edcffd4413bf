//! Branch and bound: the step over one region, the search of one worker, and that of both ways.
#![tactic(auto)]

pub use above::{FromAbove, root_from_above, split_from_above};
pub use bounds::Bounds;
pub use convoy_shares::MOST_WORKERS;
pub use gate::{Gate, NoGate};
pub use limit::Limit;
pub use options::{
    DEFAULT_LIMIT, DEFAULT_SIMULATIONS, MOST_SIMULATIONS, MOST_TICKETS, Options, Settings, Ways,
};
pub use outcome::Outcome;
pub use passes::{AfterPass, Pass, after_pass};
pub use search::{search_alone, search_alone_from};
pub use splits::Splits;
pub use step::{Step, Turn, step_branch};
pub use ways::{AfterPlain, PLAIN_TICKETS, after_plain, lead_share, plain_share, search_both_ways};

mod above;
mod asked;
mod bounds;
mod from_issue;
pub mod front_laws;
mod gate;
mod limit;
mod options;
mod ordering;
mod outcome;
mod passes;
mod placing;
mod search;
mod splits;
mod step;
mod told_back;
mod want;
mod wants;
mod ways;
