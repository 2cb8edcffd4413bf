use super::plan_refused::PlanRefused;
use convoy_plan_certificate::PlanTextFault;

/// Why the text of a certificate of a plan is refused. Memory that ran out is told by both, and says nothing of the text.
#[derive(Clone, Copy)]
pub enum PlanRefusal {
    /// The text is that of no certificate of a plan.
    Text(PlanTextFault),
    /// It is that of a certificate, which is not valid.
    Check(PlanRefused),
}

impl PlanRefusal {
    /// Whether it tells that memory ran out.
    pub fn is_memory(self) -> bool {
        matches!(
            self,
            PlanRefusal::Text(PlanTextFault::Memory) | PlanRefusal::Check(PlanRefused::Memory)
        )
    }
}
