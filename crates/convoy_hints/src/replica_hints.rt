use convoy_replicas::ReplicaFault;
use std::alloc::{AllocError, Global};

/// What to write where it can't be told how far replicas are from the leaders of their groups, in one line `hint: ..`.
pub fn hint_for_replicas(alloc: Global, fault: ReplicaFault) -> Result<String, AllocError> {
    match fault {
        ReplicaFault::Unmeasured => String::from_str(
            alloc,
            "hint: the scenario does not say how long a tick lasts: write its key 'tick' beside 'time = \"real\"', or '--accept' with a number of ticks\n",
        ),
        ReplicaFault::TooLong => String::from_str(
            alloc,
            "hint: a packet between a leader and its replicas takes at most 65535 ticks: write less, or the scenario in longer ticks\n",
        ),
    }
}

/// What an open answer of that word says where replicas have to answer, and late runs were sought by so many simulations of
/// `most` that may be made, in one line `hint: ..`: to rely on its second number, or to let more runs be tried.
pub fn hint_for_open_accept(
    alloc: Global,
    word: &str,
    simulations: u64,
    most: u64,
) -> Result<String, AllocError> {
    let rest = if simulations < most {
        format!(in alloc;
            ", and with more simulations, as with '--seek {most}', a later one may be found"
        )?
    } else {
        String::new(alloc)
    };
    format!(in alloc;
        "hint: no latency where replicas answer is above the second number of '{word}', and some run has the first{rest}\n"
    )
}
