use convoy_tables::Format;

/// What is asked of the kinds of messages of a text.
#[derive(Clone, Copy)]
pub enum KindsTask {
    /// The ceiling of each kind at each group, as a table in that format.
    Table { format: Format },
    /// The greatest of these ceilings, and traffic that is sought by so many simulations at most.
    Worst { simulations: u64 },
}
