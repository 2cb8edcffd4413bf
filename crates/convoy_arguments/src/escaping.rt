//! Words of a command line, as a text for a person has them.

ghost use Rattle.std.specs.Prelude.{◌≡◌};
ghost use Rattle.convoy_arguments.specs.Texts.{are_shown, is_shown};

use std::alloc::{AllocError, Global};
use std::convert::AsStr;
use std::fmt;

/// A word with its control characters, and its backslashes, as escapes.
#[derive(Clone, Copy, Drop)]
pub(crate) struct Escaped<'a>(pub(crate) &'a str);

impl fmt::Display for Escaped<'_> {
    fn fmt<W: fmt::Write>(&self, f: &mut fmt::Formatter<W>) -> fmt::Result {
        for character in self.0.chars() {
            if character.is_control() || character == '\\' {
                let code = u32::from(character);
                write!(f, "\\u{code:04x}")?;
            } else {
                f.write_char(character)?;
            }
        }
        Ok(())
    }
}

/// Words with escapes in place of their control characters. None where they have no such character.
pub(crate) fn with_escapes<S: AsStr>(
    alloc: Global,
    words: &[S],
) -> Result<Option<Vec<String>>, AllocError> {
    if words.iter().all(|word| is_plain(word.as_str())) {
        return Ok(None);
    }
    let mut all = Vec::new(alloc);
    for word in words {
        let word = Escaped(word.as_str());
        all.push(format!(in alloc; "{word}")?)?;
    }
    Ok(Some(all))
}

/// Whether a word has no control character.
fn is_plain(word: &str) -> bool {
    !word.chars().any(|character| character.is_control())
}

/// Whether a text has no control characters but for the ends of its lines.
pub(crate) fn are_shown(text: &str) -> bool
    ensures { result ≡ are_shown text.now }
{
    text.chars().all(|character| is_shown(character))
}

/// Whether a character is only shown by a terminal, or is the end of a line.
fn is_shown(character: char) -> bool
    ensures { result ≡ is_shown character }
{
    character == '\n' || !character.is_control()
}
