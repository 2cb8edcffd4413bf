use convoy_finish_answers::Accepted;
use convoy_scenario::Scenario;
use convoy_workflows::Workflow;

/// What a certificate is to be of.
#[derive(Drop)]
pub enum Reference {
    /// A scenario, in which no message follows another.
    Scenario(Scenario),
    /// A scenario of which each group is replicated by white box: compared are it and the ways by which its messages are
    /// finished.
    Accepted(Accepted),
    /// A workflow, of which the scenario, what its messages follow and the message from whose issue the time counts are
    /// compared.
    Workflow(Workflow),
}
