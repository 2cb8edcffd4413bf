ghost use Rattle.std.specs.Prelude.{◌<◌, length, All, IfOk};
ghost use Rattle.convoy_starts.specs.Links.{IsLink};

use super::facts::Facts;
use super::open_case::OpenCase;
use convoy_starts::{Link, Scratch};
use convoy_sure::Windows;
use std::alloc::{AllocError, Global};

/// What leads leave open of a box: the first case, and how a stamp of the target may exceed the
/// rival's there.
#[derive(Drop)]
pub struct Opening {
    /// The case.
    pub case: OpenCase,
    /// The chain of links by which the stamp of the target at the first group where it is not surely
    /// less may be as great as that. None where the rival may arrive at the target's group first.
    pub links: Vec<Link>,
}

impl<'a> Facts<'a> {
    /// The chain by which a stamp of the target may exceed that of message `n` in windows, with no message
    /// barred but the target, or with each. The last test that used the scratch was that of these windows and
    /// this message.
    pub(crate) fn links(
        &self,
        alloc: Global,
        windows: &Windows,
        n: usize,
        barring: bool,
        scratch: &Scratch,
    ) -> Result<Vec<Link>, AllocError>
        requires { n < length self.now.scenario.now.multicasts }
        ensures { IfOk result (λ links. All (IsLink self.now.scenario.now) links.items) }
    {
        if !self.arrives_behind(windows, n) {
            return Ok(Vec::new(alloc));
        }
        let sure = self.sure_of(alloc, windows, n)?;
        let setting = self.setting(windows, &sure, barring);
        setting.links(scratch)
    }
}
