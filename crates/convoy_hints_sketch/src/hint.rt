//! What comes of it where a hint is sought.

use std::alloc::AllocError;

/// A hint, or none where nothing can be said. The error is that memory ran out.
pub type Hint = Result<Option<String>, AllocError>;
