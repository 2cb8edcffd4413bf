ghost use Rattle.std.specs.Prelude.{◌≡◌, option_map};
ghost use Rattle.convoy_streams.specs.Inputs.{IsInput};

use std::fs::File;
use std::io;
use std::io::{Error, Read, Stdin};
use std::rt::Files;

/// Where files are opened by their names. What the system gives for a name no clause can say. So `opens` is any
/// relation, and of a function that is proved for all of them it is known which names it opens.
pub trait Opener {
    ghost use Rattle.std.specs.Prelude.{ℕ, List, Result};
    ghost use Rattle.std.specs.declared.io.Error.{Error};

    type File: Read + Drop;

    ghost opens: { List ℕ → Result Self.File Error → Type 0 };

    /// Opens the file of that name for reading.
    fn open(&self, name: &str) -> io::Result<Self::File>
        ensures { opens name.now result };
}

impl<R: Files> Opener for R {
    type File = R::File;

    ghost opens = { λ _ _. Unit {0} };

    fn open(&self, name: &str) -> io::Result<R::File> {
        File::open(self, name)
    }
}

/// What is read.
#[derive(Drop)]
pub enum InputReader<F> {
    Standard(Stdin),
    File(F),
    /// A file that could not be opened, and why: each read fails for that reason.
    Unopened(Error),
}

/// Opens the file of that name, or takes standard input where there is none.
pub fn open_input<R: Opener>(rt: &R, stdin: Stdin, file: Option<&str>) -> InputReader<R::File>
    ensures { IsInput R.opens (option_map (λ text. text.now) file.entry) result }
{
    match file {
        None => InputReader::Standard(stdin),
        Some(file) => match rt.open(file) {
            Ok(file) => InputReader::File(file),
            Err(error) => InputReader::Unopened(error),
        },
    }
}

impl<F: Read> Read for InputReader<F> {
    ghost use Rattle.convoy_streams.specs.Inputs.{left_of};

    ghost remaining = { left_of F.remaining };

    fn read(&mut self, buffer: &mut [u8]) -> io::Result<usize> {
        match self {
            InputReader::Standard(stdin) => stdin.read(buffer),
            InputReader::File(file) => file.read(buffer),
            InputReader::Unopened(error) => Err(*error),
        }
    }
}
