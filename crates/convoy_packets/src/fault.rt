ghost use Rattle.std.specs.Prelude.{◌≡◌};
ghost use Rattle.convoy_packets.specs.declared.fault.ListFault.TheVariants.{Memory};

use std::alloc::AllocError;
use thiserror::Error;

/// Why a list of numbers is no schedule. Of several faults the first in the order of these variants
/// is told.
#[derive(Clone, Copy, Debug, PartialEq, Eq, Error)]
pub enum ListFault {
    /// The list does not have one number for each packet.
    #[error("the schedule has not one delay for each packet")]
    Length,
    /// A number is no delay that its packet may take, in ticks: the place of the first such packet.
    #[error("the schedule gives packet {0} a delay that it may not take")]
    Range(usize),
    /// Memory ran out, which says nothing of the list.
    #[error("out of memory")]
    Memory,
}

impl From<AllocError> for ListFault {
    ghost from_gives = { λ _ fault. fault ≡ Memory };

    fn from(_error: AllocError) -> ListFault {
        ListFault::Memory
    }
}
