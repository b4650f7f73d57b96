//! Reports a failed load to a user: the fault's number, where it is, and its message.

ghost use Rattle.std.specs.Prelude.{◌≡◌, IfOk};
ghost use Rattle.mig_load_types.specs.LoadFaultNumber.{fault_number};

use std::alloc::{AllocError, Allocator, Global};
use zimgasol::{LoadFault, Origin};

/// The notice that a user is shown of a failed load.
#[derive(Drop)]
pub struct Notice<A: Allocator = Global> {
    /// The fault's number, as `docs/use/FAULTS.md` has it. 60 is `NoMemory`: the load may be tried
    /// again.
    pub number: u8,
    /// The number of rounds before the fault. The memory has them.
    pub rounds: u64,
    /// The stream that has the fault.
    pub source: Origin,
    /// The message, on one line.
    pub words: String<A>,
}

/// Creates the notice of a fault, for a log and for a person. Only its message allocates.
pub fn notice_of<A: Allocator + Copy>(alloc: A, fault: LoadFault) -> Result<Notice<A>, AllocError>
    ensures number { IfOk result (λ notice. notice.number ≡ fault_number fault.fault) }
    ensures place { IfOk result (λ notice. (notice.rounds ≡ fault.round) × (notice.source ≡ fault.source)) }
{
    Ok(Notice {
        number: fault.fault.number(),
        rounds: fault.round,
        source: fault.source,
        words: format!(in alloc; "{fault}")?,
    })
}

#[cfg(test)]
mod tests {
    use super::*;
    use crate::restore;
    use zimgasol::PAGE_SIZE_4K;

    #[test]
    fn reported(rt: HostRuntime) {
        // a file header with a magic other than QEVM, and with version 3
        let Err(fault) = restore(rt.alloc(), PAGE_SIZE_4K, b"QEVN\0\0\0\x03", 1 << 20) else {
            panic!(rt; "a fault")
        };
        let notice = notice_of(rt.alloc(), fault).expect(&rt, "memory");
        assert!(rt; notice.number == 11 && notice.rounds == 0 && notice.source == Origin::Main);
        assert_eq!(rt;
            notice.words.as_str(),
            "round 0, in the stream: 11: the stream doesn't begin with QEVM"
        );
    }
}
