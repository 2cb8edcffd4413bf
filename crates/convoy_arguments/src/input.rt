ghost use Rattle.std.specs.Prelude.{◌≡◌, IfOk, option_map};
ghost use Rattle.convoy_arguments.specs.Inputs.{IsNamed, file_in, wanted_file};

use std::alloc::{AllocError, Global};

/// The inputs of a task.
#[derive(Drop)]
pub struct Inputs {
    /// That of the text which is asked about.
    pub text: Input,
    /// That of the scenario which a certificate is to be of, where one is named.
    pub wanted: Option<Input>,
}

/// What the command line says is to be read.
#[derive(Drop)]
pub enum Input {
    Standard,
    /// The file of this name.
    File(String),
}

impl Inputs {
    /// The name of the file with the scenario that is wanted, where there is one.
    pub fn scenario_file(&self) -> Option<&str>
        ensures { option_map (λ text. text.now) result ≡ wanted_file self.now.wanted }
    {
        match &self.wanted {
            Some(input) => input.file(),
            None => None,
        }
    }
}

impl Input {
    /// The input of that name: standard input where there is none, or the name is `-`.
    pub fn of(alloc: Global, name: Option<&str>) -> Result<Input, AllocError>
        ensures { IfOk result (IsNamed (option_map (λ text. text.now) name.entry)) }
    {
        match name {
            None => Ok(Input::Standard),
            Some(name) if name == "-" => Ok(Input::Standard),
            Some(name) => Ok(Input::File(String::from_str(alloc, name)?)),
        }
    }

    /// The name of the file, where it is one.
    pub fn file(&self) -> Option<&str>
        ensures { option_map (λ text. text.now) result ≡ file_in self.now }
    {
        match self {
            Input::Standard => None,
            Input::File(name) => Some(name.as_str()),
        }
    }
}
