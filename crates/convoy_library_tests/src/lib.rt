//! Callers of Convoy as a library, each a few lines with a contract of its own that is proved from public contracts
//! alone (docs/CALLING.md); tests of what the program cannot show: these callers, boards and hands, the machine of the
//! events of many workers, and workers that wait for one another; and worked traces, tables of round trips and
//! certificates of plans.
#![tactic(auto)]

pub use building::exchange;
pub use checking::{Vouched, check_certificate};
pub use fault::Fault;
pub use greatest::{Answer, greatest_latency, greatest_latency_by};
pub use records::best_of_three;
pub use schedule::latency_under;
pub use tickets::draw_together;
pub use timeout::{Judgement, judge_timeout};
pub use traffic::timeout_in_traffic;

#[cfg(test)]
mod boards;
mod building;
mod checking;
mod fault;
#[cfg(test)]
mod fits;
mod greatest;
#[cfg(test)]
mod ledgers;
#[cfg(test)]
mod machine;
#[cfg(test)]
mod plan_certificates;
#[cfg(test)]
mod ranges;
mod records;
#[cfg(test)]
mod scenarios;
mod schedule;
#[cfg(test)]
mod schedules;
mod tickets;
mod timeout;
#[cfg(test)]
mod trace_ranges;
#[cfg(test)]
mod traces;
mod traffic;
#[cfg(test)]
mod uses;
#[cfg(test)]
mod workers;
