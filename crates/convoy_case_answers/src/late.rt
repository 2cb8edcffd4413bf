ghost use Rattle.std.specs.Prelude.{◌≡◌};
ghost use Rattle.convoy_case_answers.specs.Cases.{accepts};

use convoy_outages::Outage;
use convoy_toml::WrittenTime;

/// What keeps a message back beside what a run of its scenario does.
#[derive(Clone, Copy)]
pub enum Late {
    /// Nothing does.
    Nothing,
    /// Outages, which last so long in all.
    Outages(Outage),
    /// The answers of a majority of each of its groups, all of which are replicated by white box: with replicas so far from
    /// their leaders, or as far as the text says.
    Answers(Option<WrittenTime>),
}

impl Late {
    /// Whether groups may be replicated by white box.
    pub(crate) fn accepts(&self) -> bool
        ensures { result ≡ accepts self.now }
    {
        match self {
            Late::Nothing | Late::Outages(_) => false,
            Late::Answers(_) => true,
        }
    }
}
