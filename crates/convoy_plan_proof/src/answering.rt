ghost use Rattle.std.specs.Prelude.{◌≡◌, ◌<◌, length};
ghost use Rattle.convoy_commands.specs.Replies.{SaysUnlessMemory, reply_of};
ghost use Rattle.convoy_plan_proof.specs.PlanProofs.{PlanProofSays};

use super::proving::{PlanProof, prove_plan};
use convoy_best_order::Wanted;
use convoy_best_plan::PlanWatch;
use convoy_branch::Options;
use convoy_commands::{Answer, Done, Fault};
use convoy_plans::{PlanFault, read_plan};
use convoy_toml::Asked;
use std::alloc::Global;
use std::sync::Wait;
use std::thread::Threads;

/// The certificate of the best choice of the plan of a text ([`prove_plan`]) for the targets that are wanted. Where there is none it
/// ends as `Done::Open`, and what is written is a line that says so.
///
/// Faults are those of [`read_plan`], `Fault::Plan(PlanFault::NoPlacement)` where no placement has a scenario, and
/// `Fault::Memory`.
pub fn plan_proof_answer<R: Threads + Wait + Sync, W: PlanWatch + Sync>(
    rt: &R,
    alloc: Global,
    wanted: Wanted,
    asked: &Asked,
    options: &Options,
    text: &[u8],
    watches: &[W],
) -> Result<Answer, Fault>
    requires { 0 < length watches.now }
    ensures { SaysUnlessMemory (PlanProofSays wanted asked.now) text.now (reply_of result) }
{
    let plan = read_plan(alloc, asked, text)?;
    match prove_plan(rt, alloc, &plan, wanted, options, watches)? {
        PlanProof::Proved(text) => Ok(written(Done::Fine, text)),
        PlanProof::Unplaceable => Err(Fault::Plan(PlanFault::NoPlacement)),
        PlanProof::Open | PlanProof::TooLarge | PlanProof::Refused(_) => {
            let line = Vec::from_slice(alloc, b"not proved\n")?;
            Ok(written(Done::Open, line))
        }
    }
}

/// An answer of which nothing is known besides.
fn written(done: Done, text: Vec<u8>) -> Answer
    ensures done { result.done ≡ done }
    ensures text { result.text ≡ text }
{
    Answer {
        done,
        text,
        known: None,
    }
}
