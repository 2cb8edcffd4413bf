ghost use Rattle.std.specs.Prelude.{◌≡◌};

use convoy_commands::{Done, Known};
use convoy_workflow_replies::Reference;

/// How the program did what its command line asks for, where there was no fault; and what it knows by then.
#[derive(Drop)]
pub struct End {
    pub done: Done,
    pub known: Option<Known>,
    /// What a certificate was to be of, where that is named.
    pub wanted: Option<Reference>,
}

impl End {
    /// An end of which no more is known.
    pub fn of(done: Done) -> End
        ensures { result.done ≡ done }
    {
        End {
            done,
            known: None,
            wanted: None,
        }
    }
}
