//! Loads a main stream and one channel from two readers: files, or sockets. The main stream is read
//! to its end before the channel is begun.

ghost use Rattle.std.specs.Prelude.{◌≡◌, ◌≤◌, ◌^◌, ℕ, List, [], ◌∷◌, Some, IfOk};
ghost use Rattle.mig_mem.specs.PageSize.{IsPageSize};
ghost use Rattle.mig_answer.specs.Texts.{ended_texts};
ghost use Rattle.mig_load_types.specs.Settings.{ram_settings};
ghost use Rattle.mig_session.specs.Session.{StandsFor};

use std::alloc::Allocator;
use std::io::Read;
use zimgasol::{Counted, PumpFault, Session, Source, Uuid, pump};

// The most reads of one reader.
const TURNS: u64 = 1 << 40;

/// Loads what two readers give. It reads the main stream to its end first, and then the channel. So
/// the sender must write them in that order, or at the same time. The session then has the verdict
/// (`verdict`) and the memory.
///
/// # Errors
///
/// A read failed, the end wasn't found in 2^40 reads, or an allocation was refused. The error
/// doesn't say of which reader.
pub fn load_from<A: Allocator + Copy, M: Read + Drop, C: Read + Drop>(
    alloc: A,
    page_size: u64,
    uuid: &Uuid,
    main: M,
    channel: C,
    limit: u64,
) -> Result<Session<A>, PumpFault>
    requires page_size { IsPageSize page_size }
    requires limit { limit ≤ 2 ^ 40 }
    ensures { (main_text channel_text : List ℕ) → M.remaining main ≡ Some main_text → C.remaining channel ≡ Some channel_text
        → IfOk result (StandsFor (ram_settings page_size limit) uuid.now (ended_texts main_text (channel_text ∷ []))) }
{
    let mut session = Session::new(alloc, page_size, uuid, 1, limit)?;
    pump(
        alloc,
        &mut Counted::new(main),
        &mut session,
        Source::Main,
        TURNS,
    )?;
    let channel_0 = Source::Channel(0);
    pump(
        alloc,
        &mut Counted::new(channel),
        &mut session,
        channel_0,
        TURNS,
    )?;
    Ok(session)
}

#[cfg(test)]
mod tests {
    use super::*;
    use mig_fixtures::{at, is_full, places_of, zeroed};
    use std::alloc::AllocGlobal;
    use std::process::Abort;
    use std::thread::Threads;
    use zimgasol::{MultiSender, OpenGate, PAGE_SIZE_4K, Sent, Verdict};

    // Sends a round of two pages of zeros on one channel. The main stream has 61 bytes before its
    // round, a FLUSH of 26 and an end of 19. The channel has a hello of 64 bytes and two packets of
    // 1,344.
    fn sent<R: AllocGlobal + Abort + Threads + Sync>(rt: &R) -> Sent {
        let memory = zeroed(rt.alloc(), &[("pc.ram", 2)]).expect(rt, "a memory");
        let places = [at(0, 0), at(0, 1)];
        let dirty = places_of(rt.alloc(), memory.table(), &places).expect(rt, "a set");
        let made = MultiSender::new(rt.alloc(), memory.table(), Uuid::nil(), 1, 128);
        let mut sender = made.expect(rt, "a sender");
        assert!(rt; sender.round(rt, &memory, &dirty, &OpenGate) == Ok(()));
        sender.finish().ok().expect(rt, "texts")
    }

    #[test]
    fn from_slices(rt: HostRuntime) {
        let sent = sent(&rt);
        let channel = sent.channels.first().expect(&rt, "a channel").as_slice();
        let main = sent.main.as_slice();
        let made = load_from(
            rt.alloc(),
            PAGE_SIZE_4K,
            &Uuid::nil(),
            main,
            channel,
            1 << 20,
        );
        let session = made.expect(&rt, "a session");
        assert!(rt; session.verdict() == Verdict::Done && session.rounds() == 1);
        assert!(rt; session.fed(Source::Main) == 61 + 26 + 19);
        let there = session.memory().expect(&rt, "a memory");
        assert!(rt; is_full(there, at(0, 0), 0) && is_full(there, at(0, 1), 0));
    }
}
