//! Settings in memory of their own. Each call fails where memory runs out, and else never.

ghost use Rattle.std.specs.Prelude.{◌≡◌, IfOk};

use super::kinds::{Setting, SweepKey};
use std::alloc::AllocError;

/// The same setting.
pub(crate) fn copy_setting(setting: &Setting) -> Result<Setting, AllocError>
    ensures { IfOk result (λ copy. copy ≡ setting.now) }
{
    Ok(Setting {
        key: copy_key(&setting.key)?,
        from: setting.from,
        to: setting.to,
        step: setting.step,
    })
}

/// The same key.
fn copy_key(key: &SweepKey) -> Result<SweepKey, AllocError>
    ensures { IfOk result (λ copy. copy ≡ key.now) }
{
    match key {
        SweepKey::Delay => Ok(SweepKey::Delay),
        SweepKey::At(name) => Ok(SweepKey::At(name.copy()?)),
        SweepKey::Until(name) => Ok(SweepKey::Until(name.copy()?)),
        SweepKey::Least(name) => Ok(SweepKey::Least(name.copy()?)),
        SweepKey::Most(name) => Ok(SweepKey::Most(name.copy()?)),
    }
}
