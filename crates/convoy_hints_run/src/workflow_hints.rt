//! Hints for texts in which messages follow others.

use convoy_hints::Hint;
use convoy_scenario::ScenarioFault;
use convoy_workflow_words::{WorkflowFault, WorkflowKey};
use std::alloc::{AllocError, Global};

/// The hint for a fault that only a text of a workflow has, or for one that a scenario has too.
pub(crate) fn hint_for_workflow(alloc: Global, fault: WorkflowFault) -> Result<String, AllocError> {
    match fault {
        WorkflowFault::Scenario(_) => format!(in alloc;
            "hint: but for 'after', 'on' and 'from' of the target, a workflow is written as a scenario\n"
        ),
        WorkflowFault::Shape(WorkflowKey::After) => format!(in alloc;
            "hint: 'after' is the name of the message that is followed\n"
        ),
        WorkflowFault::Shape(WorkflowKey::On) => format!(in alloc;
            "hint: 'on' is \"issue\", \"arrival\", \"commit\" or \"delivery\", and stands beside 'after'\n"
        ),
        WorkflowFault::UnknownCause => format!(in alloc;
            "hint: 'after' names a message that stands before the one that follows it\n"
        ),
        WorkflowFault::NotAtSender => format!(in alloc;
            "hint: a message that follows an arrival, a commit or a delivery is sent by the group where that is: write in 'from' a group in 'to' of the message that it follows\n"
        ),
        WorkflowFault::OverLimit => format!(in alloc;
            "hint: beside 'after' 'at' and 'until' count from the event that is followed: 'at' is 0 or more, and 'until' no less\n"
        ),
        WorkflowFault::UnknownOrigin => format!(in alloc;
            "hint: 'from' of the target names a message that the target follows, be it through others\n"
        ),
        WorkflowFault::OriginWaits => format!(in alloc;
            "hint: the message from which the time counts has so long a window, or so late a one, that with those of others it is longer than a window may be: only how far others are from it matters, so give it a shorter one, and these windows around it\n"
        ),
    }
}

/// The hint for a fault that scenarios have too, in the text of a workflow, which the command may take or not.
pub(crate) fn hint_for_scenario_of_workflow(
    alloc: Global,
    is_taken: bool,
    fault: ScenarioFault,
) -> Hint {
    if is_taken {
        return hint_for_workflow(alloc, WorkflowFault::Scenario(fault)).map(Some);
    }
    format!(in alloc;
        "hint: in this text messages follow others ('after', 'on', or 'from' of the target): 'latency' takes it, without '--ceiling', '--accept' and outages, 'analyse' writes a certificate of it, and 'scenario' a late run that other commands take\n"
    ).map(Some)
}

/// What an open answer of a workflow says, where late runs were sought by so many simulations of `most` that may be made:
/// to rely on what none exceeds, or to let more runs be tried.
pub(crate) fn hint_for_open_workflow(
    alloc: Global,
    simulations: u64,
    most: u64,
) -> Result<String, AllocError> {
    let rest = if simulations < most {
        format!(in alloc;
            "; with more simulations, as with '--seek {most}', a later one may be found"
        )?
    } else {
        String::new(alloc)
    };
    format!(in alloc;
        "hint: no run in which messages follow others is above the last number, and of 'open' some run has the first{rest}\n"
    )
}
