//! Loads a stream while it is received, and reports a fault as soon as it is known. A host that
//! receives guests closes the connection then.

ghost use Rattle.std.specs.Prelude.{◌≡◌, ◌↔◌, ◌+◌, ◌<◌, ◌^◌, ◌++◌, ℕ, List, false, IsFalse, IsTrue, IfOk, OnOk, length};
ghost use Rattle.mig_load_types.specs.declared.settings.LoadSettings.{LoadSettings};
ghost use Rattle.mig_single_load.specs.Loader.{Loads};
ghost use Rattle.mig_uses.specs.Incoming.{IsTold};

use std::alloc::Allocator;
use zimgasol::{Fault, FeedFault, LoadFault, SingleLoader, StreamFault};

/// The state of a stream that is still coming.
#[derive(Clone, Copy, Debug, PartialEq, Eq)]
pub enum Incoming {
    /// More bytes are needed.
    Coming,
    /// The stream is complete, and the guest's memory is there.
    Whole,
    /// The stream is refused, whatever follows. The memory has the rounds before the fault.
    Refused(LoadFault),
}

// Returns whether the fault only says that bytes are still missing.
fn is_unfinished(fault: Fault) -> bool
    ensures { IsTrue result ↔ (fault ≡ Fault.Stream StreamFault.Truncated) }
{
    fault == Fault::Stream(StreamFault::Truncated)
}

/// Feeds the next piece of a stream, of any length, as a socket gives it, and returns the stream's
/// state.
///
/// # Errors
///
/// `NoMemory`, which says nothing of the stream: `FeedFault` says what to do then.
pub fn take_piece<A: Allocator + Copy>(
    loader: &mut SingleLoader<A>,
    piece: &[u8],
) -> Result<Incoming, FeedFault>
    requires open { IsFalse loader.old.reader.ended }
    requires room { loader.old.reader.fed + length piece.now < 2 ^ 63 }
    ensures told { IfOk result (λ reported. (given : LoadSettings) (text : List ℕ) → Loads given loader.old text false
        → IsTold given (text ++ piece.now) reported) }
    ensures loads { OnOk result ((given : LoadSettings) (text : List ℕ) → Loads given loader.old text false
        → Loads given loader.new (text ++ piece.now) false) }
    ensures open { IsFalse loader.new.reader.ended }
    ensures fed { OnOk result (loader.new.reader.fed ≡ loader.old.reader.fed + length piece.now) }
{
    loader.feed(piece)?;
    match loader.verdict() {
        Ok(()) => Ok(Incoming::Whole),
        Err(fault) if is_unfinished(fault.fault) => Ok(Incoming::Coming),
        Err(fault) => Ok(Incoming::Refused(fault)),
    }
}

#[cfg(test)]
mod tests {
    use super::*;
    use crate::back_up;
    use mig_fixtures::zeroed;
    use std::alloc::AllocGlobal;
    use std::process::Abort;
    use zimgasol::{LoadSettings, PAGE_SIZE_4K};

    // The stream of two pages of zeros. Its opening has 61 bytes, the last 13 of which end START.
    // The round has 18 bytes and records of 16 and 9. The end has 19, the last of which is the end
    // byte.
    fn stream(rt: &(impl AllocGlobal + Abort)) -> Vec<u8> {
        let memory = zeroed(rt.alloc(), &[("pc.ram", 2)]).expect(rt, "a memory");
        let text = back_up(rt.alloc(), &memory).expect(rt, "a stream");
        assert_eq!(rt; text.len(), 61 + 18 + 16 + 9 + 19);
        text
    }

    // Feeds a stream byte by byte, as long as more bytes are needed. Returns the number of bytes,
    // and the state after them.
    fn first_reported(rt: &(impl AllocGlobal + Abort), text: &[u8]) -> (u64, Incoming) {
        let settings = LoadSettings::new(PAGE_SIZE_4K, 1 << 20);
        let mut loader = SingleLoader::new(rt.alloc(), settings);
        for byte in text.chunks(1) {
            assert!(rt; !loader.ended() && loader.fed() < 1000);
            let reported = take_piece(&mut loader, byte).expect(rt, "memory");
            if reported != Incoming::Coming {
                return (loader.fed(), reported);
            }
        }
        (loader.fed(), Incoming::Coming)
    }

    #[test]
    fn reported_at_the_first_byte_that_decides_it(rt: HostRuntime) {
        let mut text = stream(&rt);
        assert!(rt; first_reported(&rt, &text) == (123, Incoming::Whole));
        let front = text.get(..122).expect(&rt, "a front");
        assert!(rt; first_reported(&rt, front) == (122, Incoming::Coming));
        // the type byte after the opening must be PART's or END's: fault 13, after START's round
        *text.get_mut(61).expect(&rt, "a byte") = 0x7F;
        let (fed, reported) = first_reported(&rt, &text);
        let Incoming::Refused(fault) = reported else {
            panic!(rt; "a fault")
        };
        assert!(rt; fed == 62 && fault.round == 1 && fault.fault.number() == 13);
    }
}
