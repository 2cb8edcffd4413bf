//! What is told of a run: its timeline, which is when each message is proposed, committed and delivered at each of its
//! groups, and when it is issued; why a certificate's schedule has its latency; and a scenario's packets.
#![tactic(auto)]

pub use entry::{Entry, EntryKind};
pub use explaining::explain;
pub use explanation::{Explanation, Flight, Holder, LastProposal, Rise};
pub use issue::issue_of;
pub use packet_list::{write_packets, write_scheduled_packets};
pub use rises::explain_stamp;
pub use telling::{ticks_text, window_text, write_explanation};
pub use timeline::{entries_of, write_timeline};
pub use words::{sender_text, stamp_text, tick_word};

mod entry;
mod explaining;
mod explanation;
pub mod explanation_laws;
mod issue;
mod line;
mod listing;
mod moments;
mod packet_list;
mod rises;
mod telling;
mod timeline;
mod timeline_lines;
mod told;
mod words;
