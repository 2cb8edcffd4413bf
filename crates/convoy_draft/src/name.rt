ghost use Rattle.std.specs.Prelude.{◌≡◌, IfOk};
ghost use Rattle.std.specs.Str.{bytes_eq};
ghost use Rattle.convoy_draft.specs.Checks.{is_among};
ghost use Rattle.convoy_draft.specs.Names.{is_name, is_group_name, is_letter, is_name_byte};

use super::limits::LONGEST_NAME;
use std::alloc::{AllocError, Global};
use std::marker::Model;

/// A name as it is written, be it one that a group or a message may have or not (docs/FORMATS.md,
/// "Scenario text").
#[derive(Drop)]
pub struct Name {
    text: String,
}

impl Model for Name {
    ghost use Rattle.std.specs.Prelude.{List, ℕ};
    ghost use Rattle.std.specs.String.{string_bytes};

    ghost Value = { List ℕ };

    ghost view = { λ n. string_bytes n.text };
}

impl Name {
    /// The name with this text, whatever it is. Fails where memory runs out, and else never.
    pub fn new(alloc: Global, text: &str) -> Result<Name, AllocError>
        ensures { IfOk result (λ name. name ≡ text.now) }
    {
        let text = String::from_str(alloc, text)?;
        Ok(Name { text })
    }

    /// The same name, in memory of its own.
    pub fn copy(&self) -> Result<Name, AllocError>
        ensures { IfOk result (λ copy. copy ≡ self.now) }
    {
        let text = self.text.clone()?;
        Ok(Name { text })
    }

    /// The text of the name.
    pub fn as_str(&self) -> &str
        ensures { result.now ≡ self.now }
    {
        self.text.as_str()
    }

    /// Whether this and another name are the same.
    pub fn is_same(&self, other: &Name) -> bool
        ensures { result ≡ bytes_eq self.now other.now }
    {
        self.as_str() == other.as_str()
    }

    /// Whether this is one of the names.
    pub fn is_among(&self, names: &[Name]) -> bool
        ensures { result ≡ is_among self.now names.now }
    {
        names.iter().any(|other| self.is_same(other))
    }

    /// Whether a message may have this name.
    pub fn is_good(&self) -> bool
        ensures { result ≡ is_name self.now }
    {
        let bytes = self.as_str().as_bytes();
        match bytes {
            [] => false,
            [first, rest @ ..] => {
                is_letter(*first) && are_name_bytes(rest) && bytes.len() <= LONGEST_NAME
            }
        }
    }

    /// Whether a group may have this name.
    pub fn is_good_for_group(&self) -> bool
        ensures { result ≡ is_group_name self.now }
    {
        self.is_good() && self.as_str() != "client"
    }
}

fn is_letter(byte: u8) -> bool
    ensures { result ≡ is_letter byte }
{
    byte.is_ascii_lowercase()
}

fn is_name_byte(byte: u8) -> bool
    ensures { result ≡ is_name_byte byte }
{
    is_letter(byte) || byte.is_ascii_digit() || byte == b'_' || byte == b'-'
}

ghost use Rattle.std.specs.List.{list_all};

fn are_name_bytes(bytes: &[u8]) -> bool
    ensures { result ≡ list_all is_name_byte bytes.now }
{
    bytes.iter().all(|byte| is_name_byte(*byte))
}
