use super::options::jobs_of;
use clap::ArgMatches;

/// How the words of a command line ask for a task, beyond which task it is: nothing that is answered rests on it.
#[derive(Clone, Copy)]
pub struct Manner {
    /// Whether hints and progress are left out.
    pub is_quiet: bool,
    /// Whether progress is told where standard error is no terminal, too.
    pub tells_progress: bool,
    /// Whether the words name the command.
    pub names_command: bool,
    /// Whether they name the bounds by which a search goes.
    pub names_bounds: bool,
    /// How many rows of a table are made at a time.
    pub jobs: u32,
}

impl Manner {
    /// The manner of words without a command.
    pub(crate) fn of_program(given: &ArgMatches<'_>) -> Manner {
        Manner {
            is_quiet: given.get_flag("quiet"),
            tells_progress: false,
            names_command: false,
            names_bounds: false,
            jobs: 1,
        }
    }

    /// The manner of a command, which the words name, or which is what they mean without one.
    pub(crate) fn of_command(given: &ArgMatches<'_>, names_command: bool) -> Manner {
        Manner {
            is_quiet: given.get_flag("quiet"),
            tells_progress: given.get_flag("progress"),
            names_command,
            names_bounds: given.get_str("bounds").is_some(),
            jobs: jobs_of(given),
        }
    }
}
