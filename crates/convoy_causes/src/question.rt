ghost use Rattle.std.specs.Prelude.{◌≡◌, ◌<◌, length};
ghost use Rattle.convoy_causes.specs.Causes.{AreCauses};

use super::cause::Cause;
use super::event::Event;
use convoy_packets::Instance;
use std::alloc::Global;

/// What a climb is asked for: runs of an instance in which messages follow their causes, and the target is delivered long
/// after the issue of a message.
#[derive(Drop)]
pub(crate) struct Question<'a> {
    pub(crate) alloc: Global,
    pub(crate) instance: &'a Instance,
    pub(crate) causes: &'a [Cause],
    /// The number of the message from whose issue time is counted.
    pub(crate) origin: usize,
    ghost are: { AreCauses instance.now causes.now },
    ghost known: { origin < length instance.now.multicasts },
}

/// A delivery that is to be late: of a message at a group.
#[derive(Clone, Copy)]
pub(crate) struct Focus {
    pub(crate) message: usize,
    pub(crate) group: usize,
}

impl<'a> Question<'a> {
    /// The delivery of the target.
    pub(crate) fn target(&self) -> Focus {
        Focus {
            message: self.instance.target_message(),
            group: self.instance.target_group(),
        }
    }

    /// How many deliveries there are that others may wait for: that of the target, and those that messages follow.
    pub(crate) fn focus_count(&self) -> usize
        ensures { 0 < result }
    {
        let mut count = 1usize;
        for cause in self.causes {
            if cause.event == Event::Delivery {
                count = count.saturating_add(1);
            }
        }
        count
    }

    /// The delivery of a number among them: that of the target at 0, and then those that messages follow.
    pub(crate) fn focus(&self, number: usize) -> Focus {
        let mut left = number;
        for cause in self.causes {
            if left > 0 && cause.event == Event::Delivery {
                left -= 1;
                if left == 0 {
                    return Focus {
                        message: cause.message,
                        group: cause.group,
                    };
                }
            }
        }
        self.target()
    }
}
