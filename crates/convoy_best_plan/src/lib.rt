//! The best choice of a plan: at which sites its groups are to be, and in which order they are to be listed. Placements are
//! searched one group after the other; where no placement that has the sites so far can be better than the best choice so
//! far, none of them is looked at.
#![tactic(auto)]

pub use answering::{placing_answer, plan_answer};
pub use convoy_tables::Format;
pub use excluding::is_past_by;
pub use floor::Floor;
pub use leaves::{commit_known, origin_site, site_known, total_known};
pub use planned::Planned;
pub use planning::{best_plan, best_plans};
pub use searching::{next_group, placement_of, with_site};
pub use targets::targets_by;
pub use telling::{site_words, sites_line};
pub use totals::total_of;
pub use visiting::scenario_if_made;
pub use watch::{PlanWatch, Stage};
pub use watching::placements_below;

mod answering;
pub mod choice_laws;
mod cutting;
mod excluding;
mod floor;
mod hints;
mod judging;
mod last;
mod leaves;
mod likely;
mod near;
mod planned;
mod planning;
mod ranking;
mod searching;
mod standing;
mod starting;
mod targets;
mod telling;
mod told;
mod totals;
mod visiting;
mod watch;
mod watching;
