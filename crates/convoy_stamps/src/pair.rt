/// A message at one of its destinations: what has one local stamp.
#[derive(Clone, Copy)]
pub struct Pair {
    /// The message, by its number.
    pub message: usize,
    /// The group, by its number.
    pub group: usize,
}
