/// What is asked of a certificate, once it is checked.
#[derive(Clone, Copy)]
pub enum CertificateTask {
    /// Whether it is valid and, where a scenario is wanted, is of that; and whether what is accepted is told below the yes.
    Check { tells: bool },
    /// Why the latency of its schedule is what it is, and whether the ceiling of its scenario is told below it.
    Explain { with_ceiling: bool },
    /// The run of its schedule as an image.
    Draw,
}
