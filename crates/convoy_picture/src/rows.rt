use std::alloc::{AllocError, Global};

/// Rows of words beside a lane, in which no two cover each other: where the last word of each row ends.
#[derive(Drop)]
pub(crate) struct Rows {
    ends: Vec<u32>,
    /// How many rows there may be.
    most: usize,
}

impl Rows {
    /// No row yet, and no limit to how many there may be.
    pub(crate) fn new(alloc: Global) -> Rows {
        Rows {
            ends: Vec::new(alloc),
            most: usize::MAX,
        }
    }

    /// How many rows there are.
    pub(crate) fn count(&self) -> usize {
        self.ends.len()
    }

    /// Closes the rows there are: what is put from now on goes into so many further ones at most.
    pub(crate) fn close(&mut self, more: usize) {
        for end in &mut self.ends {
            *end = u32::MAX;
        }
        self.most = self.ends.len().saturating_add(more);
    }

    /// Puts a word into the first row in which it has room, or into a new one; none where there are as
    /// many rows as there may be.
    pub(crate) fn put(&mut self, (start, end): (u32, u32)) -> Result<Option<usize>, AllocError> {
        for (row, last) in self.ends.iter_mut().enumerate() {
            if *last < start {
                *last = end;
                return Ok(Some(row));
            }
        }
        if self.ends.len() >= self.most {
            return Ok(None);
        }
        self.ends.push(end)?;
        Ok(Some(self.ends.len().saturating_sub(1)))
    }
}
