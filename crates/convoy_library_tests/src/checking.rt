ghost use Rattle.std.specs.Prelude.{IfOk};
ghost use Rattle.std.specs.Result.{result_map_both};
ghost use Rattle.convoy_library.specs.Greatest.{IsGreatest};
ghost use Rattle.convoy_library.specs.Memory.{IsUnlessMemory};
ghost use Rattle.convoy_library_tests.specs.declared.fault.Fault.TheVariants.{Memory};
ghost use Rattle.convoy_library_tests.specs.Answers.{vouched_in};

use super::fault::Fault;
use convoy_library::certificate::read;
use convoy_library::checker::check;
use convoy_library::scenario::Scenario;
use std::alloc::Global;

/// A scenario and its greatest latency, in ticks.
#[derive(Drop)]
pub struct Vouched {
    pub scenario: Scenario,
    pub latency: u32,
}

/// The scenario of a certificate that somebody else made, and its greatest latency.
///
/// Bytes that are not the text of a certificate are told as `Fault::Text`, and a certificate that is
/// not valid as `Fault::Invalid`.
pub fn check_certificate(alloc: Global, text: &[u8]) -> Result<Vouched, Fault>
    ensures greatest { IfOk result (λ v. IsGreatest v.scenario v.latency) }
    ensures exact { IsUnlessMemory Memory (vouched_in text.now)
        (result_map_both (λ v. (v.scenario, v.latency)) (λ fault. fault) result) }
{
    let certificate = read(alloc, text)?;
    let latency = check(alloc, &certificate)?.latency();
    let scenario = certificate.scenario().copy()?;
    Ok(Vouched { scenario, latency })
}
