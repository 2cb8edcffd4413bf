ghost use Rattle.std.specs.Prelude.{◌≡◌, IfOk};

use std::alloc::{AllocError, Global};

/// From where to where numbers go, place by place.
#[derive(Drop)]
pub(crate) struct Ends {
    pub(crate) least: Vec<u32>,
    pub(crate) greatest: Vec<u32>,
}

impl Ends {
    /// The same, in memory of its own.
    pub(crate) fn copy(&self, alloc: Global) -> Result<Ends, AllocError>
        ensures least { IfOk result (λ ends. ends.least.items ≡ self.now.least.items) }
        ensures greatest { IfOk result (λ ends. ends.greatest.items ≡ self.now.greatest.items) }
    {
        let least = Vec::from_slice(alloc, &self.least)?;
        let greatest = Vec::from_slice(alloc, &self.greatest)?;
        Ok(Ends { least, greatest })
    }
}
