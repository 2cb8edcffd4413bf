use convoy_ceiling::target_ceiling;
use convoy_hints_scenario::has_waits;
use convoy_hints_sketch::{Hint, noun};
use convoy_scenario::Scenario;
use std::alloc::{AllocError, Global};

/// What an answer of `first` is, for a person who did not ask for it by that word, in one line `hint: ..`.
pub fn hint_for_first(alloc: Global) -> Result<String, AllocError> {
    String::from_str(
        alloc,
        "hint: this is one schedule alone, that of the least delays: 'convoy latency' finds the greatest latency\n",
    )
}

/// What to do where the traffic that was found by so many simulations at most does not attain the ceiling, or is not known
/// to keep a deadline through outages, where these are asked for, in one line `hint: ..`: to rely on the ceiling, or to let
/// more schedules be tried.
pub fn hint_for_ceiling(
    alloc: Global,
    with_outages: bool,
    simulations: u64,
    most: u64,
) -> Result<String, AllocError> {
    if with_outages {
        return String::from_str(
            alloc,
            "hint: no latency is above the ceiling, nor above the one through outages where there are such; the traffic that is found is without outages\n",
        );
    }
    let rest = if simulations < most {
        format!(in alloc; ", and with more schedules, as with '--seek {most}', some traffic may")?
    } else {
        String::new(alloc)
    };
    format!(in alloc;
        "hint: no latency is above the ceiling; the traffic that was found does not attain it{rest}\n"
    )
}

/// What the greatest latency of a scenario says where messages may wait for their issue and it is the
/// ceiling of messages of these kinds at the target's group, in one line `hint: ..`: that only narrower windows change
/// it. None where it is below the ceiling, or each issue is known.
pub fn hint_for_greatest(alloc: Global, scenario: &Scenario, greatest: u32) -> Hint {
    if !has_waits(scenario) || greatest < target_ceiling(scenario) {
        return Ok(None);
    }
    let hint = String::from_str(
        alloc,
        "hint: this is the ceiling of messages of these kinds at the target's group: wider windows and further such messages give no more there, and narrower windows may give less\n",
    )?;
    Ok(Some(hint))
}

/// What to ask where a deadline is not kept, in one line `hint: ..`: why the message is so late, and what would save most.
pub fn hint_for_late_message(alloc: Global) -> Result<String, AllocError> {
    String::from_str(
        alloc,
        "hint: the deadline is not kept: 'convoy analyse .. | convoy explain' tells why, and 'convoy survey --without ..' what would save most\n",
    )
}

/// The same where the answer is a certificate, or what was found in place of one: neither tells of a deadline.
pub fn hint_for_late_certificate(alloc: Global) -> Result<String, AllocError> {
    String::from_str(
        alloc,
        "hint: the deadline is not kept, of which no certificate tells: 'convoy latency ..' says by how much, and 'convoy explain' tells of a certificate why\n",
    )
}

/// What a best order of the groups means in a running system, in one line `hint: ..`: which numbers break ties.
pub fn hint_for_order(alloc: Global) -> Result<String, AllocError> {
    String::from_str(
        alloc,
        "hint: to have this order, let the groups break ties by numbers that rise in it: a single deadline is kept best at the group with the greatest\n",
    )
}

/// What a table of changes says of a scenario whose greatest latency is the ceiling of messages of these kinds at the
/// target's group, in one line `hint: ..`: little, since its times of issue are tuned to that. None where it is below the
/// ceiling.
pub fn hint_for_changes(alloc: Global, scenario: &Scenario, greatest: u32) -> Hint {
    if greatest < target_ceiling(scenario) {
        return Ok(None);
    }
    let hint = String::from_str(
        alloc,
        "hint: these messages attain the ceiling, so almost any change saves something here, while other traffic of the same kinds attains it still: 'ceiling' tells what a change is worth\n",
    )?;
    Ok(Some(hint))
}

/// What to do where a search by plain or stamp bounds alone, or both ways with no ticket for leads, did not
/// end with that many tickets, in one line `hint: ..`: to go by leads.
pub fn hint_for_leads(alloc: Global, tickets: u64) -> Result<String, AllocError> {
    hint_for_search(alloc, tickets, ": with '--bounds lead' it mostly does")
}

/// What to do where a search with a limit, and so by plain bounds alone, did not end with that many
/// tickets, in one line `hint: ..`: to set no limit.
pub fn hint_for_limit(alloc: Global, tickets: u64) -> Result<String, AllocError> {
    let rest =
        " by plain bounds, for which '--limit' asks: without it, or with '--bounds lead', it mostly does";
    hint_for_search(alloc, tickets, rest)
}

/// What to do where a search both ways did not end with that many tickets by plain bounds, and then that
/// many by leads, of `most` that it may have by these, in one line `hint: ..`: to allow more of them, or to
/// rely on what is known.
pub fn hint_for_both(
    alloc: Global,
    by_plain: u64,
    by_leads: u64,
    most: u64,
) -> Result<String, AllocError> {
    hint_for_search(
        alloc,
        by_plain,
        &rest_of_both(alloc, by_plain, by_leads, most)?,
    )
}

/// How the line of such a search goes on after its tickets by plain bounds.
fn rest_of_both(
    alloc: Global,
    by_plain: u64,
    by_leads: u64,
    most: u64,
) -> Result<String, AllocError> {
    if by_leads < most {
        let highest = by_plain.saturating_add(most);
        return format!(in alloc;
            " by plain bounds and {by_leads} by leads: '--limit {highest}' allows the most by leads"
        );
    }
    format!(in alloc;
        " by plain bounds and {by_leads} by leads: no latency is above the second number, and '--bounds stamp --limit 4000000' may bring the two nearer"
    )
}

/// What to do where a search by leads did not end with that many tickets, of `most` that it may have, in
/// one line `hint: ..`: to allow more of them, or to rely on what is known.
pub fn hint_for_tickets(alloc: Global, tickets: u64, most: u64) -> Result<String, AllocError> {
    if tickets < most {
        let rest = format!(in alloc; ": '--limit' allows up to {most} by leads")?;
        return hint_for_search(alloc, tickets, rest.as_str());
    }
    let rest = ", the most by leads: no latency is above the second number";
    hint_for_search(alloc, most, rest)
}

/// What to do where a search was stopped after so many seconds, of `most` that it may have, in one line
/// `hint: ..`: to allow more of them, or to rely on what is known.
pub fn hint_for_seconds(alloc: Global, seconds: u32, most: u32) -> Result<String, AllocError> {
    let unit = noun(seconds == 1, "second", "seconds");
    let rest = rest_of_option(alloc, ", and '--seconds'", seconds.into(), most.into())?;
    format!(in alloc;
        "hint: the search was stopped after {seconds} {unit}: no latency is above the second number{rest}\n"
    )
}

/// The line for a search that did not end with that many tickets: those words, and then the rest.
fn hint_for_search(alloc: Global, tickets: u64, rest: &str) -> Result<String, AllocError> {
    let what = noun(tickets == 1, "ticket", "tickets");
    format!(in alloc; "hint: the search did not end with {tickets} {what}{rest}\n")
}

/// How such a line ends where an option allowed so much, of `most`: that it allows more, if it does.
pub(crate) fn rest_of_option(
    alloc: Global,
    option: &str,
    allowed: u64,
    most: u64,
) -> Result<String, AllocError> {
    if allowed < most {
        return format!(in alloc; "{option} allows up to {most}");
    }
    Ok(String::new(alloc))
}
