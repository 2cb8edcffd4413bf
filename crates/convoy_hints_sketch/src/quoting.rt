use std::fmt;

/// How many characters of a text are shown at most.
const MOST_SHOWN: usize = 40;

/// How many names of a list are shown at most.
const MOST_NAMES: usize = 16;

/// A text of the input between double quotes, as a hint shows it: its first 40 characters, those that are
/// no letters, digits or signs of ASCII as escapes, and dots for the rest.
#[derive(Clone, Copy, Drop)]
pub struct Quoted<'a>(pub &'a str);

impl fmt::Display for Quoted<'_> {
    fn fmt<W: fmt::Write>(&self, f: &mut fmt::Formatter<W>) -> fmt::Result {
        f.write_str("\"")?;
        show_front(f, self.0)?;
        f.write_str("\"")
    }
}

/// Writes the first characters of a text, and dots where it has more.
fn show_front<W: fmt::Write>(formatter: &mut fmt::Formatter<W>, text: &str) -> fmt::Result {
    for (place, character) in text.chars().enumerate() {
        if place >= MOST_SHOWN {
            return formatter.write_str("...");
        }
        show(formatter, character)?;
    }
    Ok(())
}

/// Writes a character, or its escape.
fn show<W: fmt::Write>(formatter: &mut fmt::Formatter<W>, character: char) -> fmt::Result {
    let is_sign = (' '..='~').contains(&character) && character != '"' && character != '\\';
    if character.is_alphanumeric() || is_sign {
        return formatter.write_char(character);
    }
    let code = u32::from(character);
    write!(formatter, "\\u{code:04x}")
}

/// Names in double quotes, with commas between them.
#[derive(Clone, Copy, Drop)]
pub struct Names<'a>(pub &'a [&'a str]);

impl fmt::Display for Names<'_> {
    fn fmt<W: fmt::Write>(&self, f: &mut fmt::Formatter<W>) -> fmt::Result {
        for (place, name) in self.0.iter().enumerate() {
            write_comma(f, place)?;
            if place >= MOST_NAMES {
                return f.write_str("...");
            }
            let name = Quoted(name);
            write!(f, "{name}")?;
        }
        Ok(())
    }
}

/// Writes what stands before the word at a place of a list.
fn write_comma<W: fmt::Write>(formatter: &mut fmt::Formatter<W>, place: usize) -> fmt::Result {
    if place > 0 {
        formatter.write_str(", ")
    } else {
        Ok(())
    }
}

/// A number that tells a place from 1 on, as 1st, 2nd, 3rd.
#[derive(Clone, Copy, Drop)]
pub struct Ordinal(pub usize);

impl fmt::Display for Ordinal {
    fn fmt<W: fmt::Write>(&self, f: &mut fmt::Formatter<W>) -> fmt::Result {
        let number = self.0;
        let ending = match (number % 100, number % 10) {
            (11..=13, _) => "th",
            (_, 1) => "st",
            (_, 2) => "nd",
            (_, 3) => "rd",
            _ => "th",
        };
        write!(f, "{number}{ending}")
    }
}

/// Words in single quotes, with commas between them.
#[derive(Clone, Copy, Drop)]
pub(crate) struct Words<'a>(pub(crate) &'a [&'a str]);

impl fmt::Display for Words<'_> {
    fn fmt<W: fmt::Write>(&self, f: &mut fmt::Formatter<W>) -> fmt::Result {
        for (place, word) in self.0.iter().enumerate() {
            write_comma(f, place)?;
            write!(f, "'{word}'")?;
        }
        Ok(())
    }
}
