//! A verdict is obeyed with the inputs that it names.

ghost use Rattle.std.specs.Prelude.{◌<◌, length};
ghost use Rattle.convoy_arguments.specs.Verdicts.{IsVerdict};
ghost use Rattle.convoy.specs.Obeying.{HasObeyed};

use super::obey;
use convoy_arguments::Verdict;
use convoy_best_plan::PlanWatch;
use convoy_commands::Fault;
use convoy_hints_run::End;
use convoy_streams::{InputSource, Opener, Sink, source_of};
use std::alloc::Global;
use std::io::Stdin;
use std::sync::Wait;
use std::thread::Threads;

/// How a verdict was obeyed, and its inputs as they are since.
#[derive(Drop)]
pub struct Obeyed<F> {
    /// The input that the task reads.
    pub source: InputSource<F>,
    /// That of the scenario which a certificate is to be of.
    pub other: InputSource<F>,
    pub result: Result<End, Fault>,
}

/// Opens the inputs that the command line names, each by its name, and does what it asks for.
pub fn open_and_obey<R: Opener + Threads + Wait + Sync, K: Sink, W: PlanWatch + Sync>(
    rt: &R,
    alloc: Global,
    stdin: Stdin,
    verdict: &Verdict,
    sink: &mut K,
    watches: &[W],
) -> Obeyed<R::File>
    requires watched { 0 < length watches.now }
    requires verdict { IsVerdict verdict.now }
    ensures { HasObeyed R.opens R.File.remaining K.writes verdict.now sink.old sink.new result }
{
    let mut source = source_of(rt, alloc, stdin, verdict.file());
    let mut other = source_of(rt, alloc, stdin, verdict.scenario_file());
    let result = obey(rt, alloc, verdict, &mut source, &mut other, sink, watches);
    Obeyed {
        source,
        other,
        result,
    }
}
