use std::alloc::AllocError;

/// What is made, unless memory runs out.
pub type AllocResult<T> = Result<T, AllocError>;
