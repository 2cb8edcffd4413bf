//! Hints for texts of kinds of messages.

use convoy_hints::Hint;
use convoy_kinds::{KindsFault, KindsKey, KindsLimit, MOST_KINDS, MOST_TABLES};
use convoy_scenario::ScenarioFault;
use std::alloc::{AllocError, Global};

/// The hint for a fault that only a text of kinds has, or for one that a scenario has too.
pub(crate) fn hint_for_kinds(alloc: Global, fault: KindsFault) -> Result<String, AllocError> {
    match fault {
        KindsFault::Scenario(_) => format!(in alloc;
            "hint: what kinds share is written as in a scenario\n"
        ),
        KindsFault::Shape(KindsKey::Kind) => format!(in alloc;
            "hint: kinds of messages are tables [[kind]], each with a name, with 'from' unless clients send them, and with 'to' or 'to_any'\n"
        ),
        KindsFault::Shape(KindsKey::ToAny) => format!(in alloc;
            "hint: 'to_any' is a list of numbers, as [2, 3] for each set of two and of three groups\n"
        ),
        KindsFault::NotOneTo => format!(in alloc;
            "hint: a [[kind]] has either 'to', its groups, or 'to_any', to how many of all groups it goes\n"
        ),
        KindsFault::OverLimit(limit) => hint_for_limit(alloc, limit),
        KindsFault::DoubleSender => format!(in alloc;
            "hint: 'from' of a [[kind]] names each of its senders once\n"
        ),
    }
}

/// The hint for a number of a text of kinds that is outside its limits.
fn hint_for_limit(alloc: Global, limit: KindsLimit) -> Result<String, AllocError> {
    match limit {
        KindsLimit::Tables => {
            format!(in alloc; "hint: there are 1 to {MOST_TABLES} tables [[kind]]\n")
        }
        KindsLimit::Sizes => format!(in alloc;
            "hint: the numbers of 'to_any' ascend, and each is from 1 to the number of groups\n"
        ),
        KindsLimit::Kinds => {
            format!(in alloc;
                "hint: all tables [[kind]] write 1 to {MOST_KINDS} kinds: one for each sender and each set of groups\n"
            )
        }
    }
}

/// The hint for a fault that scenarios have too, where there is one.
pub(crate) fn hint_for_shared(alloc: Global, fault: ScenarioFault) -> Hint {
    match fault {
        ScenarioFault::UnknownGroup => format!(in alloc;
            "hint: 'to' of a [[kind]] and of a link names groups that 'groups' has, and 'from' such groups or places that 'places' has\n"
        ).map(Some),
        ScenarioFault::NoRange => format!(in alloc;
            "hint: in real time a range is written between any two groups, and from clients, wherever they send a [[kind]]: write links, or 'least' beside 'delay'\n"
        ).map(Some),
        ScenarioFault::DoubleName => format!(in alloc;
            "hint: names of groups and places differ, and so do those of tables [[kind]]\n"
        ).map(Some),
        _ => Ok(None),
    }
}
