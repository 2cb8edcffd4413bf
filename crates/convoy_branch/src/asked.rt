//! What a search learns where it asks whether a region is closed.

use convoy_certificate::Node;
use convoy_leads::{LeadTest, Opening, Scratch};

/// What is known of a region where it was asked whether it is closed for a latency.
#[derive(Drop)]
pub(crate) struct Asked<'a> {
    /// The leaf that closes it, if there is one.
    pub leaf: Option<Node>,
    /// What leads leave open of it, where they were asked and do not close it: apart from the rest, which
    /// is little, since most regions are closed or split without leads.
    pub left: Option<Box<LeftOpen<'a>>>,
}

/// A region that leads do not close for a latency: their test of it, and what keeps it open for that latency, if
/// that is a case of a rival.
#[derive(Drop)]
pub(crate) struct LeftOpen<'a> {
    pub test: LeadTest<'a>,
    /// What the test was told from.
    pub scratch: Scratch,
    pub opening: Option<Opening>,
}

impl<'a> Asked<'a> {
    ghost use Rattle.std.specs.Prelude.{◌≡◌, Some, None};

    /// That of a region which a leaf closes.
    pub(crate) fn closed(leaf: Node) -> Asked<'a>
        ensures { result ≡ record { leaf = Some leaf; left = None } }
    {
        Asked {
            leaf: Some(leaf),
            left: None,
        }
    }

    /// That of a region which the bounds do not close, where leads are not asked.
    pub(crate) fn nothing() -> Asked<'a>
        ensures { result ≡ record { leaf = None; left = None } }
    {
        Asked {
            leaf: None,
            left: None,
        }
    }
}
