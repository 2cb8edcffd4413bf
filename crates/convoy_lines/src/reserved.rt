//! A text with room of its own, for what has to be told even where memory has run out.

ghost use Rattle.std.specs.Prelude.{◌≡◌, ◌≤◌, ◌+◌, [], ◌++◌, length, IfOk, OnOk, OnErr};

use std::alloc::{AllocError, Global};
use std::marker::Model;

/// How many bytes of a text have their memory before they are there.
pub const RESERVED: usize = 4_096;

/// A text that is written anew again and again. The memory of its first [`RESERVED`] bytes is taken once, so that where
/// memory has run out there is still room to tell it.
#[derive(Drop)]
pub struct ReservedText {
    bytes: Vec<u8>,
}

impl Model for ReservedText {
    ghost use Rattle.std.specs.Prelude.{◌≤◌, ℕ, List};
    ghost use Rattle.std.specs.Vec.{vec_capacity};
    ghost use Rattle.convoy_lines.specs.declared.reserved.TheConstants.{RESERVED};

    ghost Value = { List ℕ };

    ghost view = { λ t. t.bytes.items };

    ghost invariant = { λ t. RESERVED ≤ vec_capacity t.bytes };
}

impl ReservedText {
    /// A text of no bytes, with its memory. Fails only where memory runs out.
    pub fn new(alloc: Global) -> Result<ReservedText, AllocError>
        ensures { IfOk result (λ text. text ≡ []) }
    {
        Ok(ReservedText {
            bytes: Vec::with_capacity(alloc, RESERVED)?,
        })
    }

    /// What stands in it.
    pub fn bytes(&self) -> &[u8]
        ensures { result.now ≡ self.now }
    {
        self.bytes.as_slice()
    }

    /// Takes all bytes out of it, and keeps their memory.
    pub fn clear(&mut self)
        ensures { self.new ≡ [] }
    {
        self.bytes.clear();
    }

    /// Appends bytes for which there is room.
    pub fn push(&mut self, bytes: &[u8])
        requires { length self.old + length bytes.now ≤ RESERVED }
        ensures { self.new ≡ self.old ++ bytes.now }
    {
        let _ = self.bytes.extend_from_slice(bytes);
    }

    /// Appends bytes, and takes memory where they need more room; where there is none, the text is as it was.
    pub fn append(&mut self, bytes: &[u8]) -> Result<(), AllocError>
        ensures ok { OnOk result (self.new ≡ self.old ++ bytes.now) }
        ensures err { OnErr result (self.new ≡ self.old) }
    {
        self.bytes.extend_from_slice(bytes)
    }
}
