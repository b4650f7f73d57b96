//! Loads a guest on several channels, and reads each page straight from its connection to its place
//! in the blocks where the guest is to run. Nothing of a page is kept anywhere else.
//!
//! One thread reads the sources in turns. Safe Rattle has no two threads that write disjoint pages
//! of one block. A caller that can lend pages so has a thread for each channel, and the load behind
//! one lock: `claim`, `take`, `feed` and `end` are called under it, and pages are read without it.
//! `examples/c/channels.c` does that.

ghost use Rattle.std.specs.Prelude.{ℕ, ◌≡◌, ◌↔◌, ◌+◌, ◌*◌, ◌<◌, ◌≤◌, ◌^◌, List, [], length, IfOk, IfSome, IsSome, IsTrue, IsFalse, OnOk};
ghost use Rattle.mig_mem.specs.Place.{IsPlace};
ghost use Rattle.mig_mem.specs.Image.{Image, content_at, zero_page, with_page};
ghost use Rattle.mig_mem.specs.Parts.{part_at, ChangesPart};
ghost use Rattle.mig_mem.specs.Lent.{lent_bytes, mut_lent_bytes, lent_image, FitTable};
ghost use Rattle.mig_packet.specs.Packet.{normal_count, zero_count};
ghost use Rattle.mig_assemble.specs.HeadPlaces.{LieIn};
ghost use Rattle.mig_assemble.specs.PacketPages.{LiesIn};
ghost use Rattle.mig_load_types.specs.declared.settings.LoadSettings.{LoadSettings};
ghost use Rattle.mig_load_types.specs.Settings.{ram_settings};
ghost use Rattle.mig_answer.specs.Texts.{Texts};
ghost use Rattle.mig_sources.specs.declared.source.Source.TheVariants as source;
ghost use Rattle.mig_sources.specs.Sources.{HasSource, count_of};
ghost use Rattle.mig_in_place.specs.Answer.{IsInPlaceAnswer};
ghost use Rattle.mig_in_place.specs.Sources.{counts_of};
ghost use Rattle.mig_in_place.specs.Turns.{number_of};
ghost use Rattle.mig_apart.specs.Claims.{StandsFreely};
ghost use Rattle.mig_uses.specs.Straight.{page_place, WritesWithin, HasZeros, contents_in, HasClaimed, GoesOn, cut_in_a_packet, IsAnswered};

use mig_packet::{ChannelFault, PacketHead, head_len};
use std::alloc::{Allocator, Global};
use std::io::Read;
use std::marker::Model;
use zimgasol::{
    ApartSession, Claim, Fault, GuestTarget, InPlaceSession, LoadFault, LoadSettings, NoMemory,
    Origin, Place, Source, Table, TurnFault, TurnOrder, Uuid, Verdict,
};

// The most turns of all sources together. A turn takes a packet, or as many bytes as its head has.
const TURNS: u64 = 1 << 40;

// The number of bytes of a hello, with which a channel begins.
const HELLO_LEN: usize = 64;

// ---- the memory

/// Guest memory whose pages can be read to their places.
pub trait ReadTarget: GuestTarget {
    /// Returns the content of a page.
    fn page(&self, place: Place) -> &[u8]
        requires { IsPlace (Self.image self.now).table place }
        ensures { result.now ≡ content_at (Self.image self.now) place };

    /// Reads a page from a connection to its place. Returns whether the connection has all of it.
    fn read_page<R: Read>(&mut self, connection: &mut R, place: Place) -> Result<bool, TurnFault>
        requires { IsPlace (Self.image self.old).table place }
        ensures { (content : List ℕ) × (Self.image self.new ≡ with_page (Self.image self.old) place content) };
}

/// The blocks where the guest is to run: one slice for each block of the table, in its order.
#[derive(Drop)]
pub struct Blocks<'b, A: Allocator = Global> {
    table: Table<A>,
    blocks: Vec<&'b mut [u8], A>,
}

impl<'b, A: Allocator> Model for Blocks<'b, A> {
    ghost use Rattle.mig_mem.specs.Image.{Image};
    ghost use Rattle.mig_mem.specs.Lent.{mut_lent_bytes, lent_image, FitTable};

    ghost Value = { Image };

    ghost view = { λ m. lent_image m.table (mut_lent_bytes m.blocks.items) };

    ghost invariant = { λ m. FitTable m.table (mut_lent_bytes m.blocks.items) };
}

// Returns whether there is a slice for each block, as long as its pages.
fn fit<A: Allocator>(table: &Table<A>, blocks: &[&mut [u8]]) -> bool
    ensures { IsTrue result ↔ FitTable table.now (mut_lent_bytes blocks.now) }
{
    if blocks.len() != table.len() {
        return false;
    }
    for i in 0..table.len() {
        if blocks[i].len() as u64 != table.pages(i) * table.page_size() {
            return false;
        }
    }
    true
}

// Reads until `piece` is full or the connection ends. Returns the number of bytes that it read.
fn fill<R: Read>(connection: &mut R, piece: &mut [u8]) -> Result<usize, TurnFault>
    ensures len { length piece.new ≡ length piece.old }
    ensures within { IfOk result (λ n. n ≤ length piece.old) }
{
    let mut len = 0;
    while len < piece.len() {
        let Ok(count) = connection.read(&mut piece[len..]) else {
            return Err(TurnFault::Read);
        };
        if count == 0 {
            return Ok(len);
        }
        len += count;
    }
    Ok(len)
}

// Returns a page of a block.
fn page_of(bytes: &[u8], size: u64, page: u64) -> &[u8]
    requires { page * size + size ≤ length bytes.now }
    ensures { result.now ≡ part_at size bytes.now page }
{
    let start = (page * size) as usize;
    &bytes[start..start + size as usize]
}

// Writes a page of a block.
fn write_page(bytes: &mut [u8], size: u64, page: u64, content: &[u8])
    requires room { page * size + size ≤ length bytes.old }
    requires len { length content.now ≡ size }
    ensures { ChangesPart size bytes.old bytes.new page content.now }
{
    let start = (page * size) as usize;
    bytes[start..start + size as usize].copy_from_slice(content);
}

// Clears a page of a block.
fn clear_page(bytes: &mut [u8], size: u64, page: u64)
    requires { page * size + size ≤ length bytes.old }
    ensures { ChangesPart size bytes.old bytes.new page (zero_page size) }
{
    let start = (page * size) as usize;
    bytes[start..start + size as usize].fill(0);
}

// Reads a page of a block. Returns whether the connection has all of it.
fn read_part<R: Read>(
    connection: &mut R,
    bytes: &mut [u8],
    size: u64,
    page: u64,
) -> Result<bool, TurnFault>
    requires { page * size + size ≤ length bytes.old }
    ensures { (content : List ℕ) × (length content ≡ size) × ChangesPart size bytes.old bytes.new page content }
{
    let start = (page * size) as usize;
    let count = fill(connection, &mut bytes[start..start + size as usize])?;
    Ok(count as u64 == size)
}

impl<'b, A: Allocator> Blocks<'b, A> {
    /// Creates the memory of these slices. Returns None exactly if they don't fit the table.
    pub fn new(table: Table<A>, blocks: Vec<&'b mut [u8], A>) -> Option<Blocks<'b, A>>
        ensures image { IfSome result (λ m. m ≡ lent_image table (mut_lent_bytes blocks.entry.items)) }
        ensures fits { IsSome result ↔ FitTable table (mut_lent_bytes blocks.entry.items) }
    {
        if !fit(&table, &blocks) {
            return None;
        }
        Some(Blocks { table, blocks })
    }
}

impl<'b, A: Allocator> ReadTarget for Blocks<'b, A> {
    fn page(&self, place: Place) -> &[u8] {
        page_of(self.blocks[place.block], self.table.page_size(), place.page)
    }

    fn read_page<R: Read>(&mut self, connection: &mut R, place: Place) -> Result<bool, TurnFault> {
        let size = self.table.page_size();
        read_part(connection, self.blocks[place.block], size, place.page)
    }
}

impl<'b, A: Allocator> GuestTarget for Blocks<'b, A> {
    type Alloc = A;

    ghost image = { λ m. m };

    fn table(&self) -> &Table<A> {
        &self.table
    }

    fn put_page(&mut self, place: Place, bytes: &[u8]) {
        let size = self.table.page_size();
        write_page(self.blocks[place.block], size, place.page, bytes);
    }

    fn put_zero_page(&mut self, place: Place) {
        let size = self.table.page_size();
        clear_page(self.blocks[place.block], size, place.page);
    }
}

// ---- the pages of a packet

// Returns the place of page `i` of a packet in block `block`.
fn place_of<M: GuestTarget>(memory: &M, head: &PacketHead<'_>, block: usize, i: usize) -> Place
    requires { i < normal_count head.now.bytes.now + zero_count head.now.bytes.now }
    ensures { result ≡ page_place (M.image memory.now).table block head.now.bytes.now i }
{
    let table = memory.table();
    // its page size is one of the two
    table.keeps_limits();
    Place {
        block,
        page: head.offset(i) / table.page_size(),
    }
}

// Reads the normal pages of a packet to their places. Returns whether the connection has all of
// them.
fn read_pages<R: Read, M: ReadTarget>(
    memory: &mut M,
    connection: &mut R,
    head: &PacketHead<'_>,
    block: usize,
) -> Result<bool, TurnFault>
    requires lies { LiesIn (M.image memory.old).table block head.now.bytes.now }
    ensures { WritesWithin block head.now.bytes.now (M.image memory.old) (M.image memory.new) }
{
    for i in 0..head.normal_len() {
        let place = place_of(memory, head, block, i);
        if !memory.read_page(connection, place)? {
            return Ok(false);
        }
    }
    Ok(true)
}

// Clears the pages of zeros of a packet.
fn clear_pages<M: ReadTarget>(memory: &mut M, head: &PacketHead<'_>, block: usize)
    requires lies { LiesIn (M.image memory.old).table block head.now.bytes.now }
    ensures within { WritesWithin block head.now.bytes.now (M.image memory.old) (M.image memory.new) }
    ensures zeros { HasZeros block head.now.bytes.now (zero_count head.now.bytes.now) (M.image memory.new) }
{
    for i in 0..head.zero_len() {
        let place = place_of(memory, head, block, head.normal_len() + i);
        memory.put_zero_page(place);
    }
}

// Returns the contents of the normal pages of a packet, where they lie.
fn contents_of<'m, A: Allocator + Copy, M: ReadTarget>(
    alloc: A,
    memory: &'m M,
    head: &PacketHead<'_>,
    block: usize,
) -> Result<Vec<&'m [u8], A>, NoMemory>
    requires lies { LiesIn (M.image memory.now).table block head.now.bytes.now }
    ensures { IfOk result (λ v. lent_bytes v.items ≡ contents_in (M.image memory.now) block head.now.bytes.now (normal_count head.now.bytes.now)) }
{
    let mut contents = Vec::with_capacity(alloc, head.normal_len())?;
    for i in 0..head.normal_len() {
        contents.push_reserved(memory.page(place_of(memory, head, block, i)));
    }
    Ok(contents)
}

// Reads the pages of a packet whose places are claimed, and takes it. If the connection ends
// before, they stay claimed.
fn take_packet<A: Allocator + Copy, R: Read, M: ReadTarget>(
    alloc: A,
    load: &mut ApartSession<A>,
    memory: &mut M,
    connection: &mut R,
    channel: usize,
    head: &PacketHead<'_>,
    block: usize,
    bytes: &[u8],
) -> Result<(), TurnFault>
    requires source { HasSource (counts_of load.old.load.sources) (source.Channel channel) }
    requires table { (M.image memory.old).table ≡ load.old.load.table }
    requires head { head.now.bytes.now ≡ bytes.now }
    requires lies { LieIn load.old.load.table block bytes.now }
    requires claimed { HasClaimed block bytes.now load.old }
    ensures goes { GoesOn (M.image memory.old) load.old (M.image memory.new) load.new }
    ensures tables { ((M.image memory.new).table ≡ (M.image memory.old).table) × (load.new.load.table ≡ load.old.load.table) }
{
    if !read_pages(memory, connection, head, block)? {
        return Ok(());
    }
    clear_pages(memory, head, block);
    // the memory is one, as its contract says
    let _table = memory.table();
    let Ok(contents) = contents_of(alloc, memory, head, block) else {
        return Err(TurnFault::NoMemory);
    };
    match load.take(channel, bytes, &contents) {
        Ok(_) => Ok(()),
        Err(NoMemory) => Err(TurnFault::NoMemory),
    }
}

// ---- turns

// A connection, and the bytes that were read of it and not taken yet.
#[derive(Drop)]
struct Connection<R: Drop, A: Allocator> {
    reader: R,
    kept: Vec<u8, A>,
}

// Returns the number of bytes of the next item of a source: a channel begins with a hello.
fn next_len<A: Allocator + Copy>(load: &InPlaceSession<A>, source: Source) -> usize
    requires { HasSource (counts_of load.now.sources) source }
{
    match source {
        Source::Channel(_) if load.fed(source) == 0 => HELLO_LEN,
        _ => {
            load.table().keeps_limits();
            head_len(load.table().page_size())
        }
    }
}

// Returns whether bytes of a source can be fed: nothing is claimed, and the source is open and has
// room.
fn may_feed<A: Allocator + Copy>(load: &ApartSession<A>, source: Source, len: usize) -> bool
    requires { HasSource (counts_of load.now.load.sources) source }
    ensures nothing { IsTrue result → length load.now.claimed.marked ≡ 0 }
    ensures open { IsTrue result → IsFalse (count_of (counts_of load.now.load.sources) source).ended }
    ensures room { IsTrue result → (count_of (counts_of load.now.load.sources) source).fed + len < 2 ^ 64 }
{
    load.claimed() == 0 && !load.load().ended(source) && load.load().has_room(source, len)
}

impl<R: Read + Drop, A: Allocator> Connection<R, A> {
    // Reads on until `len` bytes are kept, or the connection ends.
    fn read_on(&mut self, len: usize) -> Result<(), TurnFault> {
        let from = self.kept.len();
        if len <= from {
            return Ok(());
        }
        let Ok(()) = self.kept.resize(len, 0) else {
            return Err(TurnFault::NoMemory);
        };
        let count = fill(&mut self.reader, &mut self.kept[from..])?;
        self.kept.truncate(from + count);
        Ok(())
    }

    // Feeds the bytes that are kept, if they can be fed. If a packet is claimed, they wait.
    fn feed<B: Allocator + Copy, M: GuestTarget>(
        &mut self,
        load: &mut ApartSession<B>,
        memory: &mut M,
        source: Source,
    ) -> Result<(), TurnFault>
        requires source { HasSource (counts_of load.old.load.sources) source }
        requires table { (M.image memory.old).table ≡ load.old.load.table }
        ensures goes { OnOk result (GoesOn (M.image memory.old) load.old (M.image memory.new) load.new) }
        ensures tables { ((M.image memory.new).table ≡ (M.image memory.old).table) × (load.new.load.table ≡ load.old.load.table) }
    {
        if !may_feed(load, source, self.kept.len()) {
            return Ok(());
        }
        // the memory is one before and after the call, as its contract says
        let _before = memory.table();
        let Ok(taken) = load.feed(memory, source, &self.kept) else {
            return Err(TurnFault::NoMemory);
        };
        let _after = memory.table();
        self.kept.drain(..taken);
        Ok(())
    }
}

// Takes a turn of a source.
fn take_turn<A: Allocator + Copy, R: Read + Drop, M: ReadTarget>(
    alloc: A,
    load: &mut ApartSession<A>,
    memory: &mut M,
    connection: &mut Connection<R, A>,
    source: Source,
) -> Result<(), TurnFault>
    requires source { HasSource (counts_of load.old.load.sources) source }
    requires table { (M.image memory.old).table ≡ load.old.load.table }
    ensures goes { OnOk result (GoesOn (M.image memory.old) load.old (M.image memory.new) load.new) }
    ensures tables { OnOk result (((M.image memory.new).table ≡ (M.image memory.old).table) × (load.new.load.table ≡ load.old.load.table)) }
{
    connection.read_on(next_len(load.load(), source))?;
    if connection.kept.is_empty() {
        load.end(source);
        return Ok(());
    }
    let Source::Channel(channel) = source else {
        return connection.feed(load, memory, source);
    };
    match load.claim(channel, &connection.kept) {
        Claim::Pages(head, block) => {
            let (reader, kept) = (&mut connection.reader, &connection.kept);
            take_packet(alloc, load, memory, reader, channel, &head, block, kept)?;
            connection.kept.clear();
            Ok(())
        }
        Claim::Wait => Ok(()),
        Claim::Feed => connection.feed(load, memory, source),
    }
}

// Returns the source with a number: the main stream has 0, and channel `j` has `j + 1`.
fn source_at(number: usize) -> Source
    ensures { number_of result ≡ number }
{
    match number.checked_sub(1) {
        None => Source::Main,
        Some(j) => Source::Channel(j),
    }
}

// Returns whether a source has a turn: the load takes bytes of it.
fn has_turn<A: Allocator + Copy>(load: &InPlaceSession<A>, source: Source) -> bool
    ensures { IsTrue result → HasSource (counts_of load.now.sources) source }
{
    load.has(source) && load.takes(source) && !load.ended(source)
}

// Returns the number of the source that has the next turn: of the one that `order` chooses, or else
// of the first of `count`.
fn whose_turn<A: Allocator + Copy, O: TurnOrder>(
    order: &mut O,
    load: &InPlaceSession<A>,
    count: usize,
) -> Option<usize>
    ensures { IfSome result (λ n. (n < count) × ((from : _) → number_of from ≡ n → HasSource (counts_of load.now.sources) from)) }
{
    let chosen = order.next_turn(load);
    if chosen < count && has_turn(load, source_at(chosen)) {
        return Some(chosen);
    }
    for number in 0..count {
        if has_turn(load, source_at(number)) {
            return Some(number);
        }
    }
    None
}

// Returns the verdict where the connection of a source ended in the pages of a packet.
fn cut<A: Allocator + Copy>(load: &InPlaceSession<A>, source: Source) -> Verdict
    ensures { result ≡ cut_in_a_packet load.now.rounds source }
{
    let source = match source {
        Source::Main => Origin::Main,
        Source::Channel(channel) => Origin::Channel(channel),
    };
    Verdict::Failed(LoadFault {
        round: load.rounds(),
        source,
        fault: Fault::Channel(ChannelFault::Truncated),
    })
}

// Returns the load's verdict. Nothing is claimed.
fn verdict_of<A: Allocator + Copy, M: GuestTarget>(load: &ApartSession<A>, memory: &M) -> Verdict
    requires { load.now.claimed.marked ≡ [] }
    ensures { (given : LoadSettings) (uuid : List ℕ) (first : Image) (texts : Texts) → StandsFreely given uuid first texts (M.image memory.now) load.now
        → IsInPlaceAnswer given uuid first texts (M.image memory.now) load.now.load.rounds result }
{
    // the memory is one, as its contract says
    let _table = memory.table();
    load.load().verdict()
}

// Keeps no bytes of the connections yet.
fn none_kept<A: Allocator + Copy, R: Read + Drop>(
    alloc: A,
    connections: Vec<R, A>,
) -> Result<Vec<Connection<R, A>, A>, NoMemory> {
    let mut sources = Vec::new(alloc);
    for reader in connections {
        let kept = Vec::new(alloc);
        sources.push(Connection { reader, kept })?;
    }
    Ok(sources)
}

// Gives the sources turns until the verdict is there. Returns the fault of a channel whose
// connection ended in the pages of a packet.
fn take_turns<A: Allocator + Copy, R: Read + Drop, O: TurnOrder, M: ReadTarget>(
    alloc: A,
    load: &mut ApartSession<A>,
    memory: &mut M,
    sources: &mut [Connection<R, A>],
    order: &mut O,
) -> Result<Verdict, TurnFault>
    requires nothing { load.old.claimed.marked ≡ [] }
    requires table { (M.image memory.old).table ≡ load.old.load.table }
    ensures { IfOk result (λ verdict. (given : LoadSettings) (uuid : List ℕ) (first : Image) (texts : Texts) → StandsFreely given uuid first texts (M.image memory.old) load.old
        → IsAnswered given uuid first (M.image memory.new) verdict) }
{
    for _ in 0..TURNS {
        let Some(number) = whose_turn(order, load.load(), sources.len()) else {
            return Ok(verdict_of(load, memory));
        };
        let source = source_at(number);
        take_turn(alloc, load, memory, &mut sources[number], source)?;
        if load.claimed() != 0 {
            return Ok(cut(load.load(), source));
        }
    }
    Ok(verdict_of(load, memory))
}

/// Receives a guest over `connections`, the main stream's first, into `memory`. The memory has the
/// table that the old host sends, and at most `limit` bytes. `order` chooses the connection to read
/// next, among live ones that have bytes. A turn reads a packet, so it waits for all of it.
///
/// Returns the verdict: that of the load on the bytes that it took, or `Truncated` of a channel
/// whose connection ended in the pages of a packet. On `Done` the memory has all rounds on top of
/// what it held, and the guest can run. On a fault the pages that the failed round names may hold
/// anything.
///
/// # Errors
///
/// `Read`, if a connection failed, and `NoMemory`: the guest must not run.
pub fn receive_straight<A: Allocator + Copy, R: Read + Drop, O: TurnOrder, M: ReadTarget>(
    alloc: A,
    uuid: &Uuid,
    limit: u64,
    connections: Vec<R, A>,
    order: &mut O,
    memory: &mut M,
) -> Result<Verdict, TurnFault>
    requires connections { (2 ≤ length connections.items) × (length connections.items ≤ 256) }
    requires limit { limit ≤ 2 ^ 40 }
    ensures answer { IfOk result (IsAnswered (ram_settings (M.image memory.old).table.page_size limit) uuid.now (M.image memory.old) (M.image memory.new)) }
{
    let settings = LoadSettings::new(memory.table().page_size(), limit);
    let channels = connections.len() - 1;
    let made = ApartSession::new(alloc, settings, memory.table(), uuid, channels);
    let Ok(mut load) = made else {
        return Err(TurnFault::NoMemory);
    };
    let Ok(mut sources) = none_kept(alloc, connections) else {
        return Err(TurnFault::NoMemory);
    };
    take_turns(alloc, &mut load, memory, &mut sources, order)
}

#[cfg(test)]
mod tests {
    use super::*;
    use mig_assemble::RoundFault;
    use mig_fixtures::{at, places_of, table};
    use mig_packet::{hello, put_packet};
    use std::alloc::AllocGlobal;
    use std::process::Abort;
    use std::thread::Threads;
    use zimgasol::{LentMemory, MultiSender, OpenGate, RoundRobin, Sent};

    const PAGES: usize = 4;

    // Sends some pages of a guest as a round.
    fn send_round<H: AllocGlobal + Abort + Threads + Sync>(
        rt: &H,
        sender: &mut MultiSender,
        guest: &[u8],
        pages: &[Place],
    ) {
        let table = table(rt.alloc(), &[("pc.ram", PAGES as u64)]).expect(rt, "a table");
        let blocks = [guest];
        let memory = LentMemory::new(&table, &blocks).expect(rt, "a memory");
        let dirty = places_of(rt.alloc(), &table, pages).expect(rt, "a set");
        assert!(rt; sender.round(rt, &memory, &dirty, &OpenGate) == Ok(()));
    }

    // Writes the first byte of a page.
    fn write(rt: &impl Abort, guest: &mut [u8], page: usize, byte: u8) {
        *guest.get_mut(page.wrapping_mul(4096)).expect(rt, "a byte") = byte;
    }

    // Sends a guest on two channels, in packets of one page: all pages, two of which are zeros, and
    // then two that changed, one of them to zeros. Its first bytes are then 0, 6, 0 and 7.
    fn sent<H: AllocGlobal + Abort + Threads + Sync>(rt: &H) -> Sent {
        let table = table(rt.alloc(), &[("pc.ram", PAGES as u64)]).expect(rt, "a table");
        let made = MultiSender::new(rt.alloc(), &table, Uuid::nil(), 2, 1);
        let mut sender = made.expect(rt, "a sender");
        let mut guest = [0u8; PAGES * 4096];
        write(rt, &mut guest, 0, 5);
        write(rt, &mut guest, 1, 6);
        let all = [at(0, 0), at(0, 1), at(0, 2), at(0, 3)];
        send_round(rt, &mut sender, &guest, &all);
        write(rt, &mut guest, 0, 0);
        write(rt, &mut guest, 3, 7);
        send_round(rt, &mut sender, &guest, &[at(0, 0), at(0, 3)]);
        sender.finish().ok().expect(rt, "streams")
    }

    // Returns the value as a vector.
    fn alone<T: Drop>(rt: &(impl AllocGlobal + Abort), value: T) -> Vec<T> {
        let mut values = Vec::new(rt.alloc());
        assert!(rt; values.push(value).is_ok());
        values
    }

    // Receives some streams into a block, the main stream's first.
    fn receive(
        rt: &(impl AllocGlobal + Abort),
        streams: Vec<&[u8]>,
        block: &mut [u8],
    ) -> Result<Verdict, TurnFault> {
        let table = table(rt.alloc(), &[("pc.ram", PAGES as u64)]).expect(rt, "a table");
        let made = Blocks::new(table, alone(rt, block));
        let mut memory = made.expect(rt, "a memory");
        assert!(rt; 2 <= streams.len() && streams.len() <= 256);
        let order = &mut RoundRobin::new();
        receive_straight(
            rt.alloc(),
            &Uuid::nil(),
            1 << 20,
            streams,
            order,
            &mut memory,
        )
    }

    // Returns the streams, channel 0 up to its byte `end`.
    fn streams<'s>(rt: &(impl AllocGlobal + Abort), sent: &'s Sent, end: usize) -> Vec<&'s [u8]> {
        let mut streams = alone(rt, sent.main.as_slice());
        for channel in &sent.channels {
            assert!(rt; streams.push(channel.as_slice()).is_ok());
        }
        let first = streams.get_mut(1).expect(rt, "a channel");
        *first = first.get(..end).unwrap_or(first);
        streams
    }

    // Returns whether the first byte of each page is this one, and no other byte is set.
    fn has(block: &[u8], bytes: &[u8]) -> bool {
        block.iter().enumerate().all(|(i, byte)| {
            let wanted = if i % 4096 == 0 {
                bytes.get(i / 4096)
            } else {
                Some(&0)
            };
            wanted == Some(byte)
        })
    }

    #[test]
    fn two_rounds(rt: HostRuntime) {
        let sent = sent(&rt);
        let mut block = [9u8; PAGES * 4096];
        let verdict = receive(&rt, streams(&rt, &sent, usize::MAX), &mut block);
        assert!(rt; verdict == Ok(Verdict::Done));
        assert!(rt; has(&block, &[0, 6, 0, 7]));
    }

    fn failed(round: u64, source: Origin, fault: Fault) -> Result<Verdict, TurnFault> {
        Ok(Verdict::Failed(LoadFault {
            round,
            source,
            fault,
        }))
    }

    // Returns a channel that has page 0 in its first round.
    fn channel_of(rt: &(impl AllocGlobal + Abort), id: u8) -> Vec<u8> {
        let mut bytes = Vec::from_slice(rt.alloc(), &hello(&Uuid::nil(), id)).expect(rt, "a hello");
        let number = id as u64;
        let put = put_packet(
            4096,
            &mut bytes,
            number,
            false,
            b"pc.ram",
            &[0],
            &[8; 4096],
            &[],
        );
        assert!(rt; put.is_ok());
        let put = put_packet(4096, &mut bytes, number + 2, true, &[], &[], &[], &[]);
        assert!(rt; put.is_ok());
        bytes
    }

    // Returns the streams of a round in which both channels have page 0.
    fn page_on_both<H: AllocGlobal + Abort + Threads + Sync>(rt: &H) -> Sent {
        let mut sent = sent(rt);
        sent.channels.clear();
        for id in 0..2 {
            assert!(rt; sent.channels.push(channel_of(rt, id)).is_ok());
        }
        sent
    }

    // The connection of channel 0 ends in the page of its first packet.
    #[test]
    fn cut_in_a_page(rt: HostRuntime) {
        let sent = page_on_both(&rt);
        let mut block = [0u8; PAGES * 4096];
        let verdict = receive(&rt, streams(&rt, &sent, 64 + 1344 + 100), &mut block);
        let truncated = Fault::Channel(ChannelFault::Truncated);
        assert!(rt; verdict == failed(0, Origin::Channel(0), truncated));
    }

    #[test]
    fn page_on_both_channels(rt: HostRuntime) {
        let sent = page_on_both(&rt);
        let mut block = [0u8; PAGES * 4096];
        let verdict = receive(&rt, streams(&rt, &sent, usize::MAX), &mut block);
        let double = Fault::Round(RoundFault::DoublePage(at(0, 0)));
        assert!(rt; verdict == failed(0, Origin::Round, double));
    }
}
