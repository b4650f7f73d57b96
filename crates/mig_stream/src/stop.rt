//! Why an item was not taken: a fault, or a refused allocation. `items` returns it to `progress`,
//! and that to the reader.

ghost use Rattle.std.specs.Prelude.{◌≡◌};
ghost use Rattle.mig_stream.specs.declared.stop.Stop.TheVariants.{Memory};

use crate::StreamFault;
use mig_mem::NoMemory;
use std::alloc::{AllocError, AllocFailed};

/// Why an item was not taken: an allocation was refused, or the item has this fault.
#[derive(Debug, Drop)]
pub(crate) enum Stop {
    Memory,
    Fault(StreamFault),
}

impl From<NoMemory> for Stop {
    ghost from_gives = { λ _ e. e ≡ Memory };

    fn from(_: NoMemory) -> Stop {
        Stop::Memory
    }
}

impl From<AllocError> for Stop {
    ghost from_gives = { λ _ e. e ≡ Memory };

    fn from(_: AllocError) -> Stop {
        Stop::Memory
    }
}

impl<T: Drop> From<AllocFailed<T>> for Stop {
    ghost from_gives = { λ _ e. e ≡ Memory };

    fn from(_: AllocFailed<T>) -> Stop {
        Stop::Memory
    }
}
