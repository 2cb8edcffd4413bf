use convoy_commands::Done;

/// What was found of the greatest time from the issue of a workflow's origin to the delivery of its target, in ticks.
#[derive(Clone, Copy, Debug)]
pub enum Found {
    /// The greatest time.
    Greatest(u32),
    /// A time that some run has, and one above it that none exceeds.
    Between { least: u32, most: u32 },
    /// A time that no run exceeds; none was found in which messages follow their causes.
    AtMost(u32),
}

impl Found {
    ghost use Rattle.std.specs.Prelude.{◌≡◌};
    ghost use Rattle.convoy_workflow_answers.specs.WorkflowLatencies.{found_end, least_of, most_of};

    /// What the greatest time is at least, in ticks, as far as is known.
    pub fn least(self) -> u32
        ensures { result ≡ least_of self }
    {
        match self {
            Found::Greatest(time) => time,
            Found::Between { least, .. } => least,
            Found::AtMost(_) => 0,
        }
    }

    /// What it is at most, in ticks.
    pub fn most(self) -> u32
        ensures { result ≡ most_of self }
    {
        match self {
            Found::Greatest(time) => time,
            Found::Between { most, .. } => most,
            Found::AtMost(most) => most,
        }
    }

    /// How the command ends that tells it, where there is no deadline.
    pub(crate) fn end(self) -> Done
        ensures { result ≡ found_end self }
    {
        match self {
            Found::Greatest(_) => Done::Fine,
            Found::Between { .. } | Found::AtMost(_) => Done::Open,
        }
    }
}
