ghost use Rattle.std.specs.Prelude.{◌≡◌, option_map};
ghost use Rattle.convoy_arguments.specs.Verdicts.{file_of, scenario_file_of};

use super::input::{Input, Inputs};
use super::manner::Manner;
use convoy_commands::Options;
use convoy_task_list::Task;
use convoy_toml::Asked;

/// What is to be done for a command line.
#[derive(Drop)]
pub enum Verdict {
    /// It asks for this, of the texts that the inputs hold, and in this manner.
    Ask {
        task: Task,
        inputs: Inputs,
        manner: Manner,
    },
    /// It asks for the blocks of a batch, where this is asked of each text, by searches with these options; and whether
    /// the exit status is to tell how the searches end.
    Batch {
        asked: Asked,
        options: Options,
        tells_status: bool,
        input: Input,
        manner: Manner,
    },
    /// It asks for help, or is rejected: a text is to be written, and the program ends with the status. Whether
    /// there is no hint.
    Text {
        text: String,
        status: u8,
        is_quiet: bool,
    },
    /// Memory ran out.
    Memory,
}

impl Verdict {
    /// Whether hints and progress are left out.
    pub fn is_quiet(&self) -> bool {
        match self {
            Verdict::Ask { manner, .. } | Verdict::Batch { manner, .. } => manner.is_quiet,
            Verdict::Text { is_quiet, .. } => *is_quiet,
            Verdict::Memory => false,
        }
    }

    /// How many rows of a table are made at a time; of anything else there is one.
    pub fn jobs(&self) -> u32 {
        match self {
            Verdict::Ask { manner, .. } => manner.jobs,
            Verdict::Batch { .. } | Verdict::Text { .. } | Verdict::Memory => 1,
        }
    }

    /// The name of the file that is read, where one is.
    pub fn file(&self) -> Option<&str>
        ensures { option_map (λ text. text.now) result ≡ file_of self.now }
    {
        match self {
            Verdict::Ask { inputs, .. } => inputs.text.file(),
            Verdict::Batch { input, .. } => input.file(),
            Verdict::Text { .. } | Verdict::Memory => None,
        }
    }

    /// The name of the file with the scenario that a certificate is to be of, where one is named.
    pub fn scenario_file(&self) -> Option<&str>
        ensures { option_map (λ text. text.now) result ≡ scenario_file_of self.now }
    {
        match self {
            Verdict::Ask { inputs, .. } => inputs.scenario_file(),
            Verdict::Batch { .. } | Verdict::Text { .. } | Verdict::Memory => None,
        }
    }
}
