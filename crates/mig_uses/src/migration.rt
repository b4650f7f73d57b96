//! Migrates a guest on several channels. The old host sends rounds while the guest runs, and passes
//! on what was written after each. The new host loads it, with a worker for each channel.

ghost use Rattle.std.specs.Prelude.{◌≡◌, ◌≤◌, ◌^◌, ◌∷◌, ◌++◌, [], List, length, OnOk, MatchResult};
ghost use Rattle.mig_mem.specs.RamTable.{RamTable};
ghost use Rattle.mig_mem.specs.Round.{after};
ghost use Rattle.mig_stream.specs.Text.{total_bytes};
ghost use Rattle.mig_send.specs.DealtRounds.{DealtRound, IsSending};
ghost use Rattle.mig_send.specs.MultiSending.{KeepsSetting, KeepsCounts, texts_of};
ghost use Rattle.mig_load_types.specs.declared.fault.Fault.TheVariants.{NoMemory as fault_no_memory};
ghost use Rattle.mig_answer.specs.MultiLoad.{bytes_of};
ghost use Rattle.mig_answer.specs.Sent.{IsSentInAnyOrder, sent_rounds};
ghost use Rattle.mig_uses.specs.Migration.{HasArrived, HaveEachAppended};

use std::alloc::Allocator;
use std::sync::Wait;
use std::thread::Threads;
use zimgasol::{
    Dirty, Fault, LoadFault, Loaded, Memory, MultiSender, NoMemory, OpenGate, Origin, PAGE_SIZE_4K,
    SendFault, Sent, Uuid, load_multi,
};

/// Takes what a sender has written since the last call, and appends it to what has arrived, in
/// place of a network.
///
/// # Errors
///
/// `NoMemory`. The sender keeps no bytes that were taken, so some are lost: the migration has to
/// begin again.
pub fn deliver<A: Allocator + Copy>(
    alloc: A,
    sender: &mut MultiSender<A>,
    arrived: &mut Sent<A>,
) -> Result<(), NoMemory>
    requires { length arrived.old.channels.items ≡ length sender.old.channels }
    ensures arrived { OnOk result ((rounds : List DealtRound) → HasArrived arrived.old sender.old rounds → HasArrived arrived.new sender.new rounds) }
    ensures counts { KeepsCounts sender.old sender.new }
    ensures channels { length arrived.new.channels.items ≡ length arrived.old.channels.items }
{
    let mut bytes = Vec::new(alloc);
    sender.drain_main(&mut bytes);
    arrived.main.extend_from_slice(&bytes)?;
    for channel in 0..arrived.channels.len() {
        sender.drain_channel(channel, &mut bytes);
        arrived.channels[channel].extend_from_slice(&bytes)?;
    }
    Ok(())
}

/// The old host, first of all: sends a round without pages. QEMU's receiver needs it. Its threads
/// for the channels take packets as they come. In QEMU 10.0 and 11.1 they end with SIGSEGV if a
/// page comes before the main thread has read START. After a round's SYNC packet they wait until
/// the main thread has read its FLUSH, which follows START. The round costs 26 bytes of the main
/// stream, and 1,344 of each channel. A load by this library needs no such round, and takes it as
/// any other.
pub fn begin<R: Threads + Sync, A: Allocator + Copy + Send + Sync>(
    rt: &R,
    alloc: A,
    sender: &mut MultiSender<A>,
    memory: &Memory<A>,
    arrived: &mut Sent<A>,
) -> Result<(), SendFault>
    requires { length arrived.old.channels.items ≡ length sender.old.channels }
    ensures sent { OnOk result ((rounds : List DealtRound) → HasArrived arrived.old sender.old rounds → (round : DealtRound)
        × (round.snapshot ≡ record { image = memory.now; dirty = [] }) × HasArrived arrived.new sender.new (rounds ++ round ∷ [])) }
    ensures setting { KeepsSetting sender.old sender.new }
    ensures channels { length arrived.new.channels.items ≡ length arrived.old.channels.items }
{
    let none = Dirty::none(alloc, memory.table())?;
    send_round(rt, alloc, sender, memory, &none, arrived)
}

/// The old host, while the guest runs: sends the pages that are dirty in a copy of its memory, and
/// passes on what was written. Each channel has a worker on a thread of its own.
pub fn send_round<R: Threads + Sync, A: Allocator + Copy + Send + Sync>(
    rt: &R,
    alloc: A,
    sender: &mut MultiSender<A>,
    memory: &Memory<A>,
    dirty: &Dirty<A>,
    arrived: &mut Sent<A>,
) -> Result<(), SendFault>
    requires { length arrived.old.channels.items ≡ length sender.old.channels }
    ensures sent { OnOk result ((rounds : List DealtRound) → HasArrived arrived.old sender.old rounds → (round : DealtRound)
        × (round.snapshot ≡ record { image = memory.now; dirty = dirty.now.marked }) × HasArrived arrived.new sender.new (rounds ++ round ∷ [])) }
    ensures setting { KeepsSetting sender.old sender.new }
    ensures channels { length arrived.new.channels.items ≡ length arrived.old.channels.items }
{
    sender.round(rt, memory, dirty, &OpenGate)?;
    deliver(alloc, sender, arrived)?;
    Ok(())
}

/// The old host, at the end: passes on the rest of all streams.
pub fn finish<A: Allocator>(sender: MultiSender<A>, arrived: &mut Sent<A>) -> Result<(), NoMemory>
    requires { length arrived.old.channels.items ≡ length sender.channels }
    ensures { OnOk result ((rounds : List DealtRound) → HasArrived arrived.old sender rounds
        → IsSending sender.main.table sender.uuid sender.limit (length sender.channels) rounds arrived.new.main.items (texts_of arrived.new.channels.items)) }
{
    let Ok(rest) = sender.finish() else {
        return Err(NoMemory);
    };
    // as many as arrived, of what was sent
    if arrived.channels.len() != rest.channels.len() {
        return Err(NoMemory);
    }
    arrived.main.extend_from_slice(&rest.main)?;
    append_all(&mut arrived.channels, &rest.channels)
}

// Appends to each channel's bytes those at the same index of `more`.
fn append_all<A: Allocator>(
    texts: &mut Vec<Vec<u8, A>, A>,
    rest: &[Vec<u8, A>],
) -> Result<(), NoMemory>
    requires { length texts.old.items ≡ length rest.now }
    ensures { OnOk result (HaveEachAppended (texts_of texts.old.items) (texts_of rest.now) (texts_of texts.new.items)) }
{
    for i in 0..rest.len() {
        texts[i].extend_from_slice(&rest[i])?;
    }
    Ok(())
}

/// The new host: loads what has arrived, once all streams have ended. The guest may have `limit`
/// bytes together. The channels' bytes may be passed in any order.
pub fn load_arrived<R: Threads + Wait + Sync, A: Allocator + Copy + Send + Sync>(
    rt: &R,
    alloc: A,
    uuid: &Uuid,
    arrived: &Sent<A>,
    limit: u64,
) -> Result<Memory<A>, LoadFault>
    requires channels { (1 ≤ length arrived.now.channels.items) × (length arrived.now.channels.items ≤ 255) }
    requires limit { limit ≤ 2 ^ 40 }
    ensures { (table : RamTable) (rounds : List DealtRound)
        → IsSentInAnyOrder table uuid.now rounds arrived.now.main.items (bytes_of arrived.now.channels.items)
        → table.page_size ≡ 4096 → total_bytes table ≤ limit
        → MatchResult result (λ there. there ≡ after table (sent_rounds rounds)) (λ fault. fault.fault ≡ fault_no_memory) }
{
    let loaded = load_multi(
        rt,
        alloc,
        PAGE_SIZE_4K,
        uuid,
        &arrived.main,
        &arrived.channels,
        limit,
        &OpenGate,
    );
    let Loaded {
        memory,
        rounds,
        verdict,
        ..
    } = loaded;
    verdict?;
    let Some(memory) = memory else {
        // unreachable: the verdict isn't Ok here, but the checker doesn't know that
        return Err(LoadFault {
            round: rounds,
            source: Origin::Round,
            fault: Fault::NoMemory,
        });
    };
    Ok(memory)
}

#[cfg(test)]
mod tests {
    use super::*;
    use mig_fixtures::{at, places_of, set, zeroed};
    use std::alloc::AllocGlobal;
    use std::process::Abort;
    use zimgasol::Place;

    // No bytes of any stream yet.
    fn nothing(rt: &(impl AllocGlobal + Abort), channels: usize) -> Sent {
        let mut texts = Vec::new(rt.alloc());
        for _ in 0..channels {
            assert!(rt; texts.push(Vec::new(rt.alloc())).is_ok());
        }
        Sent {
            main: Vec::new(rt.alloc()),
            channels: texts,
        }
    }

    // Loads what has arrived on two channels.
    fn load_both<R: AllocGlobal + Abort + Threads + Wait + Sync>(rt: &R, arrived: &Sent) -> Memory {
        assert!(rt; arrived.channels.len() == 2);
        load_arrived(rt, rt.alloc(), &Uuid::nil(), arrived, 1 << 20).expect(rt, "a memory")
    }

    // Returns a guest of three pages, each with another first byte.
    fn guest(rt: &(impl AllocGlobal + Abort)) -> Memory {
        let mut memory = zeroed(rt.alloc(), &[("pc.ram", 3)]).expect(rt, "a memory");
        for (page, byte) in [(0u64, 1u8), (1, 2), (2, 3)] {
            assert!(rt; set(&mut memory, 0, page.wrapping_mul(4096), byte));
        }
        memory
    }

    // Sends some pages as a round.
    fn send<R: AllocGlobal + Abort + Threads + Sync>(
        rt: &R,
        sender: &mut MultiSender,
        memory: &Memory,
        places: &[Place],
        arrived: &mut Sent,
    ) {
        let dirty = places_of(rt.alloc(), memory.table(), places).expect(rt, "a set");
        assert!(rt; arrived.channels.len() == sender.channels());
        let sent = send_round(rt, rt.alloc(), sender, memory, &dirty, arrived);
        assert!(rt; sent == Ok(()));
    }

    // Sends a round without pages, three pages in the next, and one of them again in the last. With
    // at most two pages in a packet, these have two packets of pages and one. A channel has its
    // hello of 64 bytes, and a SYNC packet of 1,344 bytes for each round. A packet of pages has
    // 1,344 bytes too, and then its pages. The main stream has 61 bytes before its rounds, 26 for
    // each FLUSH, and 19 at its end.
    fn send_all<R: AllocGlobal + Abort + Threads + Sync>(
        rt: &R,
        memory: &mut Memory,
        arrived: &mut Sent,
    ) {
        let made = MultiSender::new(rt.alloc(), memory.table(), Uuid::nil(), 2, 2);
        let mut sender = made.expect(rt, "a sender");
        assert!(rt; arrived.channels.len() == sender.channels());
        let begun = begin(rt, rt.alloc(), &mut sender, memory, arrived);
        assert!(rt; begun == Ok(()) && arrived.main.len() == 61 + 26 && sender.base() == 2);
        assert!(rt; arrived.channels.iter().all(|text| text.len() == 64 + 1344));
        let places = [at(0, 0), at(0, 1), at(0, 2)];
        send(rt, &mut sender, memory, &places, arrived);
        assert!(rt; arrived.main.len() == 61 + 26 + 26);
        assert!(rt; set(memory, 0, 1, 4));
        send(rt, &mut sender, memory, &places[..1], arrived);
        assert!(rt; sender.base() == 9 && sender.rounds() == 3);
        assert!(rt; arrived.channels.len() == sender.channels());
        assert!(rt; finish(sender, arrived) == Ok(()));
        assert!(rt; arrived.main.len() == 61 + 26 + 26 + 26 + 19);
    }

    #[test]
    fn three_rounds_on_two_channels(rt: HostRuntime) {
        let mut memory = guest(&rt);
        let mut arrived = nothing(&rt, 2);
        send_all(&rt, &mut memory, &mut arrived);
        let there = load_both(&rt, &arrived);
        let page = there.page(at(0, 0)).expect(&rt, "a page");
        assert!(rt; page.starts_with(&[1, 4, 0]));
        assert!(rt; there.page(at(0, 2)) == memory.page(at(0, 2)));
    }
}
