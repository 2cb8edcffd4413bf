//! Laws alone, with no code: of one scenario with its groups listed in two orders, that the order matters to a message at
//! a group only by which other destinations of the message stand behind the group; and of one scenario with two choices
//! of links, that the narrower ranges are no slower.
#![tactic(auto)]

pub mod order_laws;
pub mod range_laws;
pub mod relisted_laws;
