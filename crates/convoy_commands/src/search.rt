ghost use Rattle.std.specs.Prelude.{◌≡◌, ◌≤◌, IfOk};
ghost use Rattle.convoy_packets.specs.Assignment.{ranges_of};
ghost use Rattle.convoy_packets.specs.Table.{least_of};
ghost use Rattle.convoy_sim.specs.Delivery.{latency_of};
ghost use Rattle.convoy_seek.specs.Finds.{IsNoLower};
ghost use Rattle.convoy_commands.specs.Searches.{IsEnd, SearchGives};

use super::answer::ReadInstance;
use super::fault::Fault;
use super::verdict::deadline_at;
use super::watch::Watch;
use convoy_branch::{
    Bounds, FromAbove, Options, Outcome, Ways, lead_share, plain_share, root_from_above,
    search_alone, split_from_above,
};
use convoy_outside::outside_told;
use convoy_packets::schedule_laws::fixed_order_is_order;
use convoy_packets::{Instance, Schedule};
use convoy_seek::seek;
use convoy_sim::Record;
use convoy_times::Measure;
use convoy_toml::{Asked, read_toml_asked};
use std::alloc::{AllocError, Global};
use std::sync::Wait;
use std::thread::Threads;

/// How many schedules are simulated at most before the root is asked from above.
const FIRST_SIMULATIONS: u64 = 500;

/// How many schedules are simulated at most before boxes are split from above. Where messages crowd, so many take less
/// time than one such box.
const MORE_SIMULATIONS: u64 = 2_000;

/// What a search for the scenario of a text gives.
#[derive(Drop)]
pub(crate) struct Searched {
    /// The scenario with its packets.
    pub read: ReadInstance,
    /// How its times are told.
    pub measure: Option<Measure>,
    /// The deadline of its target, in ticks, where it has one.
    pub deadline: Option<u32>,
    /// In at most how many billionths of runs a packet leaves its range, where the links of its text tell that.
    pub outside: Option<u64>,
    /// How the search ended.
    pub outcome: Outcome,
}

/// Searches for the greatest latency of the scenario that a text gives, where that is asked, by the options' limit of
/// tickets, by their bounds or both ways, and with their number of workers. The faults are those of
/// [`read_toml_asked`], and `Fault::Memory`.
pub(crate) fn search_text<R: Threads + Wait + Sync, W: Watch + Sync>(
    rt: &R,
    alloc: Global,
    asked: &Asked,
    text: &[u8],
    options: &Options,
    watch: &W,
) -> Result<Searched, Fault>
    ensures { SearchGives asked.now options.now text.now result }
{
    let input = read_toml_asked(alloc, text, asked)?;
    let measure = Measure::of(&input.scenario, options.unit(), input.unit);
    let deadline = deadline_at(&input.deadlines, input.scenario.target_message());
    let read = ReadInstance {
        instance: Instance::of(alloc, input.scenario)?,
        plain: input.plain,
    };
    let outside = outside_told(&input.shares, &read.instance);
    let outcome = search_instance(rt, alloc, &read.instance, options, watch)?;
    Ok(Searched {
        read,
        measure,
        deadline,
        outside,
        outcome,
    })
}

/// Searches for the greatest latency of an instance as `latency` does: by the options' limit of tickets,
/// by their bounds or both ways, and with their number of workers. Where one ticket does not end the
/// search, a good schedule is sought first, by the options' number of simulations, and the search starts
/// from that (docs/PROTOCOL.md, "Seeking"). Who watches is told as it starts, as its boxes are begun, and as it
/// ends, and may stop it between two boxes where the options give it seconds. Fails where memory runs out, and
/// else never.
pub fn search_instance<R: Threads + Wait + Sync, W: Watch + Sync>(
    rt: &R,
    alloc: Global,
    instance: &Instance,
    options: &Options,
    watch: &W,
) -> Result<Outcome, AllocError>
    ensures { IfOk result (IsEnd options.now instance.now) }
{
    watch.starts(options.seconds());
    let outcome = search(rt, alloc, instance, options, watch);
    watch.ends(!is_proved(&outcome));
    outcome
}

/// Whether the search found the greatest latency.
fn is_proved(outcome: &Result<Outcome, AllocError>) -> bool {
    matches!(outcome, Ok(Outcome::Proved { .. }))
}

/// The search of [`search_instance`], of whose end nobody is told.
fn search<R: Threads + Wait + Sync, W: Watch + Sync>(
    rt: &R,
    alloc: Global,
    instance: &Instance,
    options: &Options,
    watch: &W,
) -> Result<Outcome, AllocError>
    ensures { IfOk result (IsEnd options.now instance.now) }
{
    let simulations = options.simulations();
    if simulations == 0 {
        fixed_order_is_order();
        let schedule = Schedule::least(alloc, instance.table())?;
        let opening = Record::of(instance, schedule);
        tell_begin(watch, instance, options, opening.latency(), None);
        return search_opened(rt, alloc, instance, opening, options, watch);
    }
    match search_alone(alloc, instance, 1, options.ways().first_bounds())? {
        Outcome::Open { best, upper, .. } => {
            let found = sought(alloc, instance, best, upper, options, watch)?;
            tell_begin(watch, instance, options, found.latency(), Some(upper));
            search_opened(rt, alloc, instance, found, options, watch)
        }
        proved => Ok(proved),
    }
}

/// A record of a good schedule to start a search from, which is no lower than the one given: where the search may
/// ask leads, runs are sought from above, with some schedules simulated before the root is asked and more before boxes
/// are split, and then the rest of the options' number of simulations is made if these have not shown the greatest
/// latency; else all of them at once.
fn sought<W: Watch>(
    alloc: Global,
    instance: &Instance,
    known: Record,
    upper: u32,
    options: &Options,
    watch: &W,
) -> Result<Record, AllocError>
    requires of_scenario { known.scenario ≡ instance.now }
    ensures { IfOk result (λ found. IsNoLower known found) }
{
    let (simulations, limit) = (options.simulations(), options.search_limit());
    if !asks_leads(options) {
        return seek_within(alloc, instance, known, upper, simulations);
    }
    let few = simulations.min(FIRST_SIMULATIONS);
    let found = seek_within(alloc, instance, known, upper, few)?;
    let FromAbove { best, bound } = root_from_above(alloc, instance, found, limit, watch)?;
    let more = simulations.min(MORE_SIMULATIONS);
    let found = seek_within(alloc, instance, best, bound, more)?;
    let FromAbove { best, bound } = split_from_above(alloc, instance, found, bound, limit, watch)?;
    seek_within(alloc, instance, best, bound, simulations)
}

/// Whether a search by the options may ask leads.
fn asks_leads(options: &Options) -> bool {
    match options.ways() {
        Ways::One(bounds) => bounds == Bounds::Lead,
        Ways::Both => lead_share(options.limit()) > 0,
    }
}

/// Seeks as [`seek`] does, without the best record where memory runs out.
fn seek_within(
    alloc: Global,
    instance: &Instance,
    known: Record,
    until: u32,
    budget: u64,
) -> Result<Record, AllocError>
    requires of_scenario { known.scenario ≡ instance.now }
    ensures { IfOk result (λ found. IsNoLower known found) }
{
    match seek(alloc, instance, known, until, budget) {
        Ok(found) => Ok(found),
        Err((_, error)) => Err(error),
    }
}

/// Tells who watches that the search begins.
fn tell_begin<W: Watch>(
    watch: &W,
    instance: &Instance,
    options: &Options,
    least: u32,
    most: Option<u32>,
) {
    let limit = match options.ways() {
        Ways::One(_) => options.limit(),
        Ways::Both => plain_share(options.limit()),
    };
    let measure = Measure::of(instance.scenario(), options.unit(), None);
    watch.begins(measure, options.ways().first_bounds(), limit, least, most);
}

/// The search from an opening record of the scenario, by one worker or in several threads.
#[tactic(auto, using(crate::proofs::Starts::by_all))]
fn search_opened<R: Threads + Wait + Sync, W: Watch + Sync>(
    rt: &R,
    alloc: Global,
    instance: &Instance,
    opening: Record,
    options: &Options,
    watch: &W,
) -> Result<Outcome, AllocError>
    requires of_scenario { opening.scenario ≡ instance.now }
    requires least { latency_of instance.now (least_of (ranges_of instance.now)) ≤ opening.latency }
    ensures { IfOk result (IsEnd options.now instance.now) }
{
    let (workers, limit) = (options.workers(), options.search_limit());
    match options.ways() {
        Ways::One(bounds) => convoy_share::search_from(
            rt, alloc, instance, opening, workers, limit, bounds, watch,
        ),
        Ways::Both => convoy_share::search_both_ways(
            rt, alloc, instance, opening, workers, limit, watch,
        ),
    }
}
