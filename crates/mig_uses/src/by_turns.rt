//! Migrates a guest on several channels, over live connections, into memory that is mapped already.
//! The new host reads the main stream and the channels in turn, and writes each page as soon as its
//! bytes have arrived.

ghost use Rattle.std.specs.Prelude.{ℕ, ◌≡◌, ◌≤◌, ◌^◌, length, map, Ok, IfOk};
ghost use Rattle.mig_sources.specs.Reads.{no_reads};
ghost use Rattle.mig_load_types.specs.Settings.{ram_settings};
ghost use Rattle.mig_answer.specs.declared.verdict.Verdict.TheVariants.{Done as done};
ghost use Rattle.mig_in_place.specs.Turns.{new_source};
ghost use Rattle.mig_uses.specs.ByTurns.{IsReceived, SentIsReceived};

use std::alloc::Allocator;
use std::io::Read;
use zimgasol::{
    Counted, GuestTarget, InPlaceSession, LoadSettings, NoMemory, SourceReader, TurnFault,
    TurnOrder, Uuid, Verdict, pump_by_turns,
};

// The most turns of all sources together. A turn takes up to 64 KiB.
const TURNS: u64 = 1 << 40;

/// A connection, with a buffer for bytes that were read and not taken yet.
type Connection<R, A> = SourceReader<Counted<R>, A>;

// Gives each connection a buffer.
fn buffered<A: Allocator + Copy, R: Read + Drop>(
    alloc: A,
    connections: Vec<R, A>,
) -> Result<Vec<Connection<R, A>, A>, NoMemory>
    ensures { IfOk result (λ sources. sources.items ≡ map (new_source no_reads) (map R.remaining connections.items)) }
{
    let mut sources = Vec::with_capacity(alloc, connections.len())?;
    for connection in connections {
        sources.push_reserved(SourceReader::new(alloc, Counted::new(connection))?);
    }
    Ok(sources)
}

/// Receives a guest over `connections`, the main stream's first, into `memory`. The memory has the
/// table that the old host sends, and at most `limit` bytes. `order` chooses the connection to read
/// next, among live ones that have bytes. If one channel is a round ahead of the others, its bytes
/// wait in its buffer of 64 KiB, and then in the network.
///
/// Returns the verdict. On `Done` the memory has all rounds on top of what it held, those of the
/// `MultiSender` at the other end, and the guest can run. On a fault the pages that the failed
/// round names may hold anything.
///
/// # Errors
///
/// `Read`, if a connection failed, and `NoMemory`: the guest must not run.
pub fn receive<A: Allocator + Copy, R: Read + Drop, M: GuestTarget, O: TurnOrder>(
    alloc: A,
    uuid: &Uuid,
    limit: u64,
    connections: Vec<R, A>,
    order: &mut O,
    memory: &mut M,
) -> Result<Verdict, TurnFault>
    requires connections { (2 ≤ length connections.items) × (length connections.items ≤ 256) }
    requires limit { limit ≤ 2 ^ 40 }
    ensures answer { IfOk result (IsReceived (ram_settings (M.image memory.old).table.page_size limit) uuid.now (M.image memory.old) (map R.remaining connections.items) (M.image memory.new)) }
    ensures sent { result ≡ Ok done → SentIsReceived limit uuid.now (M.image memory.old) (map R.remaining connections.items) (M.image memory.new) }
{
    let channels = connections.len() - 1;
    let table = memory.table();
    let settings = LoadSettings::new(table.page_size(), limit);
    let Ok(mut load) = InPlaceSession::new(alloc, settings, table, uuid, channels) else {
        return Err(TurnFault::NoMemory);
    };
    let Ok(mut sources) = buffered(alloc, connections) else {
        return Err(TurnFault::NoMemory);
    };
    pump_by_turns(&mut sources, order, &mut load, memory, TURNS)
}

#[cfg(test)]
mod tests {
    use super::*;
    use mig_fixtures::{at, places_of, table};
    use std::alloc::AllocGlobal;
    use std::fs::Files;
    use std::io::{PipeReader, PipeWriter, Write, pipe};
    use std::process::Abort;
    use std::sync::Wait;
    use std::thread::{self, Threads};
    use zimgasol::{LentMemory, LentMemoryMut, MultiSender, OpenGate, RoundRobin, Sent, Table};

    const PAGES: usize = 3;

    // Sends one page of the guest as a round.
    fn send_page<H: AllocGlobal + Abort + Threads + Sync>(
        rt: &H,
        sender: &mut MultiSender,
        table: &Table,
        guest: &[u8],
        page: u64,
    ) {
        let blocks = [guest];
        let memory = LentMemory::new(table, &blocks).expect(rt, "a memory");
        let dirty = places_of(rt.alloc(), table, &[at(0, page)]).expect(rt, "a set");
        assert!(rt; sender.round(rt, &memory, &dirty, &OpenGate) == Ok(()));
    }

    // Writes `bytes` into connection `number`.
    fn write(rt: &impl Abort, connections: &mut [PipeWriter], number: usize, bytes: &[u8]) {
        let connection = connections.get_mut(number).expect(rt, "a connection");
        assert!(rt; connection.write_all(bytes).is_ok());
    }

    // Passes on what was written of each stream since the last call, the main stream's first.
    fn pass_on(
        rt: &(impl AllocGlobal + Abort),
        sender: &mut MultiSender,
        connections: &mut [PipeWriter],
    ) {
        let mut bytes = Vec::new(rt.alloc());
        sender.drain_main(&mut bytes);
        write(rt, connections, 0, &bytes);
        for channel in 0..sender.channels() {
            assert!(rt; channel < sender.channels());
            sender.drain_channel(channel, &mut bytes);
            write(rt, connections, channel.wrapping_add(1), &bytes);
        }
    }

    // The old host: its guest writes page 0, then page 2, then page 0 again. Each is sent while the
    // new host loads the rounds before it. Then the connections end.
    fn send<H: AllocGlobal + Abort + Threads + Sync>(rt: &H, connections: Vec<PipeWriter>) {
        let mut connections = connections;
        let table = table(rt.alloc(), &[("pc.ram", 3)]).expect(rt, "a table");
        let made = MultiSender::new(rt.alloc(), &table, Uuid::nil(), 2, 128);
        let mut sender = made.expect(rt, "a sender");
        let mut guest = [0u8; PAGES * 4096];
        for (page, byte) in [(0u64, 5u8), (2, 6), (0, 7)] {
            let first = page.wrapping_mul(4096) as usize;
            *guest.get_mut(first).expect(rt, "a byte") = byte;
            send_page(rt, &mut sender, &table, &guest, page);
            pass_on(rt, &mut sender, &mut connections);
        }
        let Sent { main, channels: _ } = sender.finish().ok().expect(rt, "streams");
        write(rt, &mut connections, 0, &main);
    }

    // Returns the value as an array.
    fn alone<T: Drop>(one: T) -> [T; 1] {
        [one]
    }

    // The new host: receives a guest into a block.
    fn receive_into(
        rt: &(impl AllocGlobal + Abort),
        connections: Vec<PipeReader>,
        block: &mut [u8],
    ) {
        let table = table(rt.alloc(), &[("pc.ram", 3)]).expect(rt, "a table");
        let mut blocks = alone(&mut *block);
        let memory = LentMemoryMut::new(&table, &mut blocks);
        let mut memory = memory.ok().expect(rt, "a memory");
        assert!(rt; 2 <= connections.len() && connections.len() <= 256);
        let verdict = receive(
            rt.alloc(),
            &Uuid::nil(),
            1 << 20,
            connections,
            &mut RoundRobin::new(),
            &mut memory,
        );
        assert!(rt; verdict == Ok(Verdict::Done));
    }

    // Migrates a guest over pipes into a block. The old host runs on a thread of its own.
    fn migrate<H: AllocGlobal + Files + Threads + Wait + Sync + Abort>(rt: &H, block: &mut [u8]) {
        let mut readers = Vec::new(rt.alloc());
        let mut writers = Vec::new(rt.alloc());
        for _ in 0..3 {
            let (reader, writer) = pipe(rt).expect(rt, "a pipe");
            assert!(rt; readers.push(reader).is_ok() && writers.push(writer).is_ok());
        }
        thread::scope(thread::scope_env(), rt, move |scope| {
            let Ok(old_host) = scope.spawn(move || send(rt, writers)) else {
                panic!(rt; "a thread")
            };
            receive_into(rt, readers, block);
            old_host.join(rt);
        });
    }

    // Page 1 was never sent, and stays as it was.
    #[test]
    fn over_pipes(rt: HostRuntime) {
        let mut block = [9u8; PAGES * 4096];
        migrate(&rt, &mut block);
        assert!(rt; block.starts_with(&[7, 0]) && block[4095] == 0);
        assert!(rt; block[4096] == 9 && block[8191] == 9);
        assert!(rt; block[8192] == 6 && block[8193] == 0);
    }
}
