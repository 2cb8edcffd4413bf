//! Certificates, what they say, and the one text of each: a writer and a strict reader.
#![tactic(auto)]

pub use certificate::{Certificate, LONGEST_TEXT, MOST_LEADS, MOST_NODES};
pub use form::{Form, form_of};
pub use node::{GREATEST_MOMENT, GREATEST_PACKET, GREATEST_UNTIMED_PACKET, Node};
pub use reading::read;
pub use text_fault::TextFault;
pub use version::Version;
pub use writing::{push_schedule, text_of, write};

mod certificate;
pub mod certificate_laws;
mod certificate_lines;
mod form;
mod node;
mod reading;
mod text_fault;
mod version;
mod writing;
