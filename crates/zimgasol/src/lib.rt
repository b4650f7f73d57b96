//! Sends and loads guest memory in the layouts of QEMU's live migration. This crate gives callers
//! the library under one name, and has no code of its own.
//!
//! | You have | Take |
//! |---|---|
//! | a guest's RAM as blocks of pages | `Table`, and `Memory`, or `LentMemory` over mapped blocks |
//! | a dirty bitmap | `Dirty` |
//! | one connection or file to write | `SingleSender` |
//! | a main stream and several channels to write (multifd) | `MultiSender` |
//! | the same, and threads of your own | `MultiSender::begin_round`, `ChannelWorker` |
//! | one stream, whole | `load_single` |
//! | one stream, in pieces, and no memory yet | `SingleLoader` |
//! | one stream, in pieces, and the blocks of the guest | `InPlaceLoader`, `InPlaceState` |
//! | the same, and blocks with whole sections alone at any time | `SectionsLoad` |
//! | a main stream and channels, whole | `load_multi` |
//! | a main stream and channels, in pieces or from readers | `Session`, `pump` |
//! | a main stream and channels, and the blocks of the guest | `InPlaceSession` |
//! | the same, and blocks with whole rounds alone at any time | `Staged` around the memory |
//! | the same from live connections | `SourceReader`, `pump_by_turns` |
//! | the same, and a thread for each channel that reads pages to their places | `ApartSession` |
//! | a load in place, to know which pages had a record | `Marking` around the memory |
//! | blocks of zeros, whose pages of zeros stay untouched | `Fresh` around the memory |
//! | a whole machine's stream, as QEMU writes it | `LoadSettings`, and the calls `.._with` |
//! | a fault of a load of whole streams | `Loaded::valid_up_to`, `channel_valid_up_to`: its byte |
//! | two memories to compare | `first_difference`, `differences` |
//!
//! A load returns the memory of the complete rounds, their number, and a verdict: `Ok`, or a
//! `LoadFault`, which has the first fault (`Fault::number`), its round and its source.
//! `valid_up_to` of the loaders reports at which byte it stands. No stream makes a call panic, and
//! none makes a guest larger than the limit that the caller passes.
//!
//! A call that allocates takes an allocator first, and reports a refused allocation (`NoMemory`,
//! number 60). Preconditions are checked at compile time: `requires` in a contract is what a caller
//! has to know, from a test or from an earlier contract.
//!
//! # Examples
//!
//! Each is quoted from a use in `mig_uses` or from a test, which the gate proves and runs. A script
//! compares them with the code (`tools/quotes.py`). Each main type has another example in its own
//! comment. `rt` is the runtime that a test is passed; `assert!(rt; ..)` and `expect(rt, ..)` fail
//! the test.
//!
//! # All of a guest, sent and loaded
//!
//! Every page is sent as one round of a stream, and the stream is loaded into a new memory:
//!
//! <!-- quoted from crates/mig_uses/src/first.rt -->
//! ```rust
//! use zimgasol::{MAX_TOTAL, SingleSender, load_single};
//!
//! let table = memory.table();
//! let dirty = every_page(alloc, table).ok()?;
//! let mut sender = SingleSender::new(alloc, table).ok()?;
//! sender.round(memory, &dirty).ok()?;
//! let stream = sender.finish().ok()?;
//! let loaded = load_single(alloc, table.page_size(), &stream, MAX_TOTAL);
//! loaded.verdict.ok()?;
//! loaded.memory
//! ```
//!
//! # Table, Memory
//!
//! A `Table` says which blocks a guest has: an id and a number of pages each. Memories, dirty sets
//! and senders are made of one. A `Memory` keeps the contents of the pages. Take it where the guest
//! has no mapped blocks.
//!
//! <!-- quoted from crates/mig_uses/src/first.rt -->
//! ```rust
//! let id = Vec::from_slice(alloc, b"pc.ram").ok()?;
//! let mut blocks = Vec::new(alloc);
//! blocks.push((id, 2)).ok()?;
//! let table = Table::new(alloc, PAGE_SIZE_4K, blocks).ok()?;
//! let mut memory = Memory::zeroed(alloc, &table).ok()?;
//! // shows that the byte of `set` exists
//! let table = memory.table();
//! if table.len() == 0 || 4101 >= table.pages(0) * table.page_size() {
//!     return None;
//! }
//! memory.set(0, 4101, 7);
//! ```
//!
//! # LentMemory, LentMemoryMut
//!
//! Take a `LentMemory` to send a guest from blocks that are mapped: one slice for each block, in
//! the table's order. Nobody may write these bytes while they are lent. Here `all` marks each page:
//!
//! <!-- quoted from crates/mig_stream_tests/src/lent.rt -->
//! ```rust
//! let table = table(alloc)?;
//! let lent = LentMemory::new(&table, blocks)?;
//! let mut sender = SingleSender::new(alloc, &table).ok()?;
//! sender.round(&lent, &all(alloc, &table)?).ok()?;
//! ```
//!
//! A `LentMemoryMut` is for a load into such blocks. `both` makes an array of two slices:
//!
//! <!-- quoted from crates/mig_uses/src/in_place.rt -->
//! ```rust
//! let mut blocks = both(first, second);
//! let memory = LentMemoryMut::new(table, &mut blocks)
//!     .ok()
//!     .expect(rt, "a memory");
//! ```
//!
//! # Marking
//!
//! A `Marking` around a memory marks the pages that a load in place writes, so that it tells how
//! many had no record:
//!
//! <!-- quoted from crates/mig_uses/src/in_place.rt -->
//! ```rust
//! let Ok(marking) = Marking::new(alloc, memory) else {
//!     return Err(without_memory());
//! };
//! let marking = load_onto(alloc, marking, text, limit)?;
//! let missing = marking.missing();
//! let (memory, _) = marking.into_parts();
//! Ok((memory, missing))
//! ```
//!
//! # Fresh
//!
//! A `Fresh` around a memory of zeros leaves pages alone that come as zeros. So they aren't backed:
//!
//! <!-- quoted from crates/mig_uses/src/in_place.rt -->
//! ```rust
//! let Ok(memory) = Memory::zeroed(alloc, table) else {
//!     return Err(without_memory());
//! };
//! let Ok(fresh) = Fresh::new(alloc, memory) else {
//!     return Err(without_memory());
//! };
//! let fresh = load_onto(alloc, fresh, text, limit)?;
//! Ok(fresh.into_memory())
//! ```
//!
//! # Dirty
//!
//! A `Dirty` says which pages a round sends. Take one from your dirty bitmap, or mark all pages, as
//! for the first round:
//!
//! <!-- quoted from crates/mig_uses/src/backup.rt -->
//! ```rust
//! let mut dirty = Dirty::none(alloc, table)?;
//! for block in 0..table.len() {
//!     for page in 0..table.pages(block) {
//!         dirty.mark(Place { block, page })?;
//!     }
//! }
//! Ok(dirty)
//! ```
//!
//! # SingleSender
//!
//! Take it for one connection or one file. `round` writes a round, `drain` returns the bytes that
//! were written since the last time, and `finish` ends the stream. A guest that runs on sends the
//! pages that it wrote since the last round, and keeps its marks where the round was refused:
//!
//! <!-- quoted from crates/mig_uses/src/live_guest.rt -->
//! ```rust
//! self.sender.round(&self.memory, &self.dirty)?;
//! self.dirty.clear();
//! Ok(())
//! ```
//!
//! # MultiSender
//!
//! Take it for multifd: a main stream and 1 to 255 channels. `round` has a worker for each channel,
//! on a thread of its own if one can be started.
//!
//! <!-- quoted from crates/mig_uses/src/migration.rt -->
//! ```rust
//! sender.round(rt, memory, dirty, &OpenGate)?;
//! deliver(alloc, sender, arrived)?;
//! ```
//!
//! Then each source has its bytes, which may be carried in any order. `deliver` does it so:
//!
//! <!-- quoted from crates/mig_uses/src/migration.rt -->
//! ```rust
//! let mut bytes = Vec::new(alloc);
//! sender.drain_main(&mut bytes);
//! arrived.main.extend_from_slice(&bytes)?;
//! for channel in 0..arrived.channels.len() {
//!     sender.drain_channel(channel, &mut bytes);
//!     arrived.channels[channel].extend_from_slice(&bytes)?;
//! }
//! ```
//!
//! # MultiRound, ChannelWorker
//!
//! Take these where the threads are yours. `begin_round` of a `MultiSender` starts none, and each
//! step of a worker writes one packet. Here `begin`, `worker_of`, `give_back` and `end` make the
//! calls `begin_round`, `worker`, `give_back` and `end_round`, each after the tests that it asks
//! for. `run_both` steps two workers, each on a thread, until they have ended:
//!
//! <!-- quoted from crates/mig_send_tests/src/stepped.rt -->
//! ```rust
//! assert!(rt; given.memory.table().same(sender.table()));
//! let mut round = begin(rt, sender, &given.dirty);
//! let mut a = worker_of(rt, &mut round);
//! let mut b = worker_of(rt, &mut round);
//! run_both(rt, &mut a, &mut b, &given.memory);
//! give_back(rt, &mut round, a);
//! give_back(rt, &mut round, b);
//! end(rt, round)
//! ```
//!
//! # load_single
//!
//! Take it for a stream that is complete. It returns a `Loaded`: the memory, which is there if the
//! verdict is `Ok`, the number of rounds, and the verdict.
//!
//! <!-- quoted from crates/mig_uses/src/backup.rt -->
//! ```rust
//! let loaded = load_single(alloc, page_size, text, limit);
//! loaded.verdict?;
//! ```
//!
//! # SingleLoader
//!
//! Take it for a stream that is fed in pieces, into memory that the loader makes. After each piece
//! the verdict is that on the bytes so far, so a bad stream is refused as soon as its fault has
//! arrived:
//!
//! <!-- quoted from crates/mig_uses/src/incoming.rt -->
//! ```rust
//! loader.feed(piece)?;
//! match loader.verdict() {
//!     Ok(()) => Ok(Incoming::Whole),
//!     Err(fault) if is_unfinished(fault.fault) => Ok(Incoming::Coming),
//!     Err(fault) => Ok(Incoming::Refused(fault)),
//! }
//! ```
//!
//! # InPlaceLoader, InPlaceState
//!
//! Take an `InPlaceLoader` for a stream into memory that is there: a `LentMemoryMut` or a `Memory`.
//! It writes each page once, when its bytes have come, on top of what the memory held, and keeps no
//! section. After a fault the memory also has the pages of a section that isn't complete.
//!
//! <!-- quoted from crates/mig_uses/src/in_place.rt -->
//! ```rust
//! let settings = LoadSettings::new(memory.table().page_size(), limit);
//! let Ok(mut loader) = InPlaceLoader::new(alloc, settings, memory) else {
//!     return Err(without_memory());
//! };
//! let Ok(()) = loader.feed(text) else {
//!     return Err(without_memory());
//! };
//! loader.end();
//! loader.verdict()?;
//! Ok(loader.into_memory())
//! ```
//!
//! An `InPlaceState` does so to memory that is passed to each call:
//!
//! <!-- quoted from crates/mig_relay_tests/src/in_place.rt -->
//! ```rust
//! assert!(rt; !state.ended() && state.fed() <= LIMIT && piece.len() as u64 <= LIMIT);
//! state.feed(memory, piece)
//! ```
//!
//! Before each read of a socket it says what comes next, so that a page is read straight to where
//! it belongs (`docs/use/EMBEDDING.md`, "Copies of a page"):
//!
//! <!-- quoted from crates/mig_stream_tests/src/wanted_in_place.rt -->
//! ```rust
//! let Some(Wanted::Page(place)) = state.wanted() else {
//!     return false;
//! };
//! ```
//!
//! # load_multi
//!
//! Take it for a main stream and channels that are complete, the channels in any order. A worker
//! for each channel reads its packets on a thread. It returns a `Loaded`, too.
//!
//! <!-- quoted from crates/mig_uses/src/migration.rt -->
//! ```rust
//! let loaded = load_multi(
//!     rt,
//!     alloc,
//!     PAGE_SIZE_4K,
//!     uuid,
//!     &arrived.main,
//!     &arrived.channels,
//!     limit,
//!     &OpenGate,
//! );
//! ```
//!
//! # Session
//!
//! Take it for a main stream and channels that come in pieces, in any order. `feed` takes a piece
//! of one source, and `end` ends one. `pump` does it with a reader:
//!
//! <!-- quoted from crates/mig_uses/src/two_readers.rt -->
//! ```rust
//! let mut session = Session::new(alloc, page_size, uuid, 1, limit)?;
//! pump(
//!     alloc,
//!     &mut Counted::new(main),
//!     &mut session,
//!     Source::Main,
//!     TURNS,
//! )?;
//! ```
//!
//! # InPlaceSession
//!
//! Take it for a main stream and channels in pieces, into memory that is there, such as the blocks
//! where a guest is to run. `feed` returns how many bytes of the piece it took. The others wait
//! with you until `takes` returns true for that source.
//!
//! <!-- quoted from crates/mig_in_place_tests/src/both.rt -->
//! ```rust
//! assert!(rt; load.has(source));
//! assert!(rt; !load.ended(source) && load.has_room(source, piece.len()));
//! load.feed(memory, source, piece)
//! ```
//!
//! # ApartSession
//!
//! Take it for the same with a thread for each channel, behind one lock of yours. `claim` says
//! which pages the channel's next packet has, by its head. The thread reads them to their places
//! without the lock, and `take` takes the packet. Here `content` is the page that was read, if it
//! isn't one of zeros:
//!
//! <!-- quoted from crates/mig_in_place_tests/src/apart.rt -->
//! ```rust
//! put(rt, memory, &found, block, 0, content);
//! load.take(channel, head, &[content]) == Ok(true)
//! ```
//!
//! # LoadSettings
//!
//! Take it for a machine's stream, as QEMU writes it, or to bound what waits for the end of its
//! round (`with_waiting`). Each load takes it; `load_single`, `load_multi` and `Session::new` have
//! a sibling `.._with` that does:
//!
//! <!-- quoted from crates/mig_in_place_tests/src/framed.rt -->
//! ```rust
//! let settings = LoadSettings::new(4096, LIMIT).with_frame(frame);
//! let made = InPlaceSession::new(rt.alloc(), settings, memory.table(), &Uuid::nil(), 1);
//! ```
//!
//! # first_difference
//!
//! Take it to see whether two memories of one table are the same, and if not, the first place where
//! they differ:
//!
//! <!-- quoted from crates/mig_uses/src/comparison.rt -->
//! ```rust
//! if !here.table().same(there.table()) {
//!     return Comparison::OtherTable;
//! }
//! match first_difference(here, there) {
//!     Some(place) => Comparison::Differ(place),
//!     None => Comparison::Same,
//! }
//! ```
//!
//! # The crates below
//!
//! The definitions that contracts cite are in the crates below (`docs/build/ARCHITECTURE.md`). A
//! crate whose own contracts cite them names these crates beside this one. Readers and writers of a
//! stream's records, `StreamReader`, `RecordReader` and `StreamWriter`, are those of `mig_stream`.
#![tactic(auto)]

pub use mig_apart::{ApartSession, Claim};
pub use mig_in_place::{
    InPlaceSession, RoundRobin, SourceReader, Turn, TurnFault, TurnOrder, pump_by_turns,
};
pub use mig_load::{
    Counted, Fault, FeedFault, InPlaceFault, InPlaceLoader, InPlaceState, LoadFault, LoadSettings,
    Loaded, Origin, PieceReader, PumpFault, ReadFailed, Session, SingleLoader, Source, Verdict,
    channel_valid_up_to, load_multi, load_multi_with, load_single, load_single_with, pump,
};
pub use mig_marking::{Fresh, Marking};
pub use mig_mem::{
    Dirty, GuestPages, GuestTarget, LentMemory, LentMemoryMut, MAX_TOTAL, Memory, NoMemory,
    PAGE_SIZE_4K, PAGE_SIZE_8K, Place, Table, TableFault, differences, first_difference,
    is_page_size,
};
pub use mig_sections::SectionsLoad;
pub use mig_send::{
    ChannelWorker, MultiRound, MultiSender, OpenGate, OpenRound, SendFault, Sent, SingleSender,
};
pub use mig_staged::Staged;
pub use mig_stream::{Frame, StreamFault, Wanted};
pub use uuid::Uuid;
