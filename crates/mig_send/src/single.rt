//! The sender of a single stream, for hypervisors and the tool: each round becomes one section of
//! page records.

ghost use Rattle.std.specs.Prelude.{◌≡◌, ◌≤◌, ◌++◌, ◌↔◌, ℕ, [], ◌∷◌, List, length, map, Option, Some, None, Err, IfOk, IfErr, OnOk, OnErr};
ghost use Rattle.mig_mem.specs.Place.{IsPlace};
ghost use Rattle.mig_mem.specs.Image.{Page};
ghost use Rattle.mig_mem.specs.Round.{round_of};
ghost use Rattle.mig_stream.specs.Format.{most_name_bytes};
ghost use Rattle.mig_stream.specs.Text.{file_header, configuration};
ghost use Rattle.mig_stream.specs.Written.{RoundPart, single, written_so_far};
ghost use Rattle.mig_stream.specs.MachineWritten.{machine_written};
ghost use Rattle.mig_stream.specs.Writer.{HasPut};
ghost use Rattle.mig_send.specs.Sending.{HasSent, HasSentDrained, AreOf, IsRoundFault};

use crate::SendFault;
use mig_mem::{Dirty, GuestPages, NoMemory, Place, Table};
use mig_stream::{OpenPart, StreamWriter, configured_is_written};
use std::alloc::{Allocator, Global};
use std::fmt::{self, Debug, Formatter};
use std::marker::Model;

/// Sends the rounds of one guest as one stream (QEMU's precopy RAM migration without multifd).
///
/// # Examples
///
/// A round of all pages is sent, and the stream ended:
///
/// <!-- quoted from crates/mig_stream_tests/src/lent.rt -->
/// ```rust
/// let mut sender = SingleSender::new(alloc, &table).ok()?;
/// sender.round(&lent, &all(alloc, &table)?).ok()?;
/// sender.finish().ok()
/// ```
pub struct SingleSender<A: Allocator = Global> {
    writer: StreamWriter<A>,
}

// Written out, so that a caller's proof passes a call where a value is dropped.
impl<A: Allocator> Drop for SingleSender<A> {
    fn drop(self) {
        let SingleSender { writer: _ } = self;
    }
}

impl<A: Allocator> Model for SingleSender<A> {
    ghost use Rattle.mig_stream.specs.Writer.{Writer};

    ghost Value = { Writer };

    ghost view = { λ s. s.writer };
}

impl<A: Allocator> Debug for SingleSender<A> {
    fn fmt<W: fmt::Write>(&self, f: &mut Formatter<W>) -> fmt::Result {
        f.pad("SingleSender { .. }")
    }
}

impl<A: Allocator + Copy> SingleSender<A> {
    /// Creates a sender that has sent no round yet. It keeps a copy of the table.
    ///
    /// # Errors
    ///
    /// `NoMemory`: an allocation was refused.
    pub fn new<B: Allocator>(alloc: A, table: &Table<B>) -> Result<SingleSender<A>, NoMemory>
        ensures table { IfOk result (λ s. s.table ≡ table.now) }
        ensures none { IfOk result (λ s. HasSent s []) }
    {
        let writer = StreamWriter::new(alloc, table)?;
        Ok(SingleSender { writer })
    }

    /// Creates a machine's stream: returns its first bytes, the file header and a configuration
    /// with the machine's `name`, and the sender of what follows them. QEMU refuses a stream with
    /// another name than its own machine's.
    ///
    /// # Errors
    ///
    /// `NoMemory`: an allocation was refused.
    pub fn with_configuration<B: Allocator>(
        alloc: A,
        table: &Table<B>,
        name: &[u8],
    ) -> Result<(Vec<u8, A>, SingleSender<A>), NoMemory>
        requires name { length name.now ≤ most_name_bytes }
        ensures first { IfOk result (λ r. r.0.items ≡ file_header ++ configuration (Some name.now)) }
        ensures table { IfOk result (λ r. r.1.table ≡ table.now) }
        ensures none { IfOk result (λ r. HasSentDrained file_header r.1 []) }
    {
        let (first, writer) = StreamWriter::with_configuration(alloc, table, name)?;
        Ok((first, SingleSender { writer }))
    }
}

impl<A: Allocator> SingleSender<A> {
    /// Sends a round: the dirty pages, each with its content in the image.
    ///
    /// # Errors
    ///
    /// - `OtherTable`: the image or `dirty` is of another table than the sender's.
    /// - `NoMemory`: an allocation was refused.
    ///
    /// Nothing changes, so the round can be sent again.
    pub fn round<G: GuestPages, C: Allocator>(
        &mut self,
        image: &G,
        dirty: &Dirty<C>,
    ) -> Result<(), SendFault>
        ensures table { self.new.table ≡ self.old.table }
        ensures faults { IfErr result (λ fault. IsRoundFault fault) }
        ensures other { (result ≡ Err SendFault.OtherTable) ↔ (AreOf self.old.table (G.image image.now) dirty.now → ⊥) }
        ensures ok { OnOk result ((drained : List ℕ) (rounds : List (List Page)) → HasSentDrained drained self.old rounds
            → HasSentDrained drained self.new (rounds ++ round_of (G.image image.now) dirty.now.marked ∷ [])) }
        ensures err { OnErr result (self.new ≡ self.old) }
    {
        let table = self.writer.table();
        if !image.table().same(table) || !dirty.table().same(table) {
            return Err(SendFault::OtherTable);
        }
        self.writer.part(image, dirty)?;
        Ok(())
    }

    /// Begins a round whose pages are put one by one.
    ///
    /// # Errors
    ///
    /// The sender, as it was: an allocation was refused.
    pub fn begin_round(self) -> Result<OpenRound<A>, SingleSender<A>>
        ensures before { IfOk result (λ round. round.before ≡ self) }
        ensures none { IfOk result (λ round. HasPut round []) }
        ensures err { IfErr result (λ s. s ≡ self) }
    {
        let SingleSender { writer } = self;
        match writer.begin_part() {
            Ok(part) => Ok(OpenRound { part }),
            Err(unchanged) => Err(SingleSender { writer: unchanged }),
        }
    }

    /// Returns the bytes that were written and not drained yet. All bytes drained are the stream so
    /// far: the drained pieces, and then what `finish` returns, are the stream. It allocates
    /// nothing.
    pub fn drain(&mut self) -> Vec<u8, A>
    where
        A: Copy,
        ensures table { self.new.table ≡ self.old.table }
        ensures all { (drained : List ℕ) (rounds : List (List Page)) → HasSentDrained drained self.old rounds
            → drained ++ result.items ≡ written_so_far self.old.table (map RoundPart rounds) }
        ensures drained { (drained : List ℕ) (rounds : List (List Page)) → HasSentDrained drained self.old rounds
            → HasSentDrained (drained ++ result.items) self.new rounds }
    {
        self.writer.drain()
    }

    /// Drains into `bytes`, as `drain` does. The buffer's old bytes are dropped, and its room is
    /// used for the bytes that are written next. So two buffers suffice for a stream of any length.
    pub fn drain_into(&mut self, bytes: &mut Vec<u8, A>)
        ensures table { self.new.table ≡ self.old.table }
        ensures all { (drained : List ℕ) (rounds : List (List Page)) → HasSentDrained drained self.old rounds
            → drained ++ bytes.new.items ≡ written_so_far self.old.table (map RoundPart rounds) }
        ensures drained { (drained : List ℕ) (rounds : List (List Page)) → HasSentDrained drained self.old rounds
            → HasSentDrained (drained ++ bytes.new.items) self.new rounds }
    {
        self.writer.drain_into(bytes);
    }

    /// Ends the stream, and returns the bytes that weren't drained.
    ///
    /// # Errors
    ///
    /// The sender, as it was: an allocation was refused.
    pub fn finish(self) -> Result<Vec<u8, A>, SingleSender<A>>
        ensures ok { IfOk result (λ text. (drained : List ℕ) (rounds : List (List Page)) → HasSentDrained drained self rounds
            → drained ++ text.items ≡ single self.table rounds) }
        ensures err { IfErr result (λ s. s ≡ self) }
    {
        let SingleSender { writer } = self;
        match writer.finish() {
            Ok(text) => Ok(text),
            Err(writer) => Err(SingleSender { writer }),
        }
    }

    /// Ends RAM's sections without the stream's end byte, and returns the bytes that weren't
    /// drained. The caller then writes the sections of devices and the end byte. The drained bytes
    /// and these are a machine's stream of the rounds, up to the footer of RAM's END. With a
    /// configuration after the file header, they are that of a machine of that name.
    ///
    /// # Errors
    ///
    /// The sender, as it was: an allocation was refused.
    pub fn finish_open(self) -> Result<Vec<u8, A>, SingleSender<A>>
        ensures ok { IfOk result (λ text. (drained : List ℕ) (rounds : List (List Page)) → HasSentDrained drained self rounds
            → drained ++ text.items ≡ machine_written None self.table (map RoundPart rounds)) }
        ensures configured { IfOk result (λ text. (name : Option (List ℕ)) (drained : List ℕ) (rounds : List (List Page))
            → HasSentDrained (file_header ++ drained) self rounds
            → file_header ++ configuration name ++ drained ++ text.items ≡ machine_written name self.table (map RoundPart rounds)) }
        ensures err { IfErr result (λ s. s ≡ self) }
    {
        configured_is_written();
        let SingleSender { writer } = self;
        match writer.finish_open() {
            Ok(bytes) => Ok(bytes),
            Err(writer) => Err(SingleSender { writer }),
        }
    }
}

/// A round that is sent page after page, with the contents that its caller read of a guest that
/// runs on. It has the sender until the round is ended or cancelled. If it is dropped, the sender
/// is dropped too, and the stream is lost.
pub struct OpenRound<A: Allocator = Global> {
    part: OpenPart<A>,
}

// Written out, so that a caller's proof passes a call where a value is dropped.
impl<A: Allocator> Drop for OpenRound<A> {
    fn drop(self) {
        let OpenRound { part: _ } = self;
    }
}

impl<A: Allocator> Model for OpenRound<A> {
    ghost use Rattle.mig_stream.specs.Writer.{PartSoFar};

    ghost Value = { PartSoFar };

    ghost view = { λ r. r.part };
}

impl<A: Allocator> Debug for OpenRound<A> {
    fn fmt<W: fmt::Write>(&self, f: &mut Formatter<W>) -> fmt::Result {
        f.pad("OpenRound { .. }")
    }
}

impl<A: Allocator> OpenRound<A> {
    /// Returns the table whose pages the round sends.
    pub fn table(&self) -> &Table<A>
        ensures { result.now ≡ self.now.before.table }
    {
        self.part.table()
    }

    /// Sends a page: a place of the table, which a caller tests by `Table::holds`, and its bytes.
    /// Places may be in any order. If a place occurs more than once, the last page counts.
    ///
    /// # Errors
    ///
    /// `NoMemory`: an allocation was refused. Nothing changes, so the page can be put again.
    pub fn put_page(&mut self, place: Place, bytes: &[u8]) -> Result<(), NoMemory>
        requires place { IsPlace self.old.before.table place }
        requires bytes { length bytes.now ≡ self.old.before.table.page_size }
        ensures before { self.new.before ≡ self.old.before }
        ensures ok { OnOk result ((pages : List Page) → HasPut self.old pages
            → HasPut self.new (pages ++ record { place = place; content = bytes.now } ∷ [])) }
        ensures err { OnErr result (self.new ≡ self.old) }
    {
        self.part.put_page(place, bytes)
    }

    /// Ends the round. It has the pages that were put, in their order.
    ///
    /// # Errors
    ///
    /// The round, as it was: an allocation was refused.
    pub fn end_round(self) -> Result<SingleSender<A>, OpenRound<A>>
        ensures table { IfOk result (λ s. s.table ≡ self.before.table) }
        ensures ok { IfOk result (λ s. (pages : List Page) → HasPut self pages → (drained : List ℕ) (rounds : List (List Page)) → HasSentDrained drained self.before rounds
            → HasSentDrained drained s (rounds ++ pages ∷ [])) }
        ensures err { IfErr result (λ round. round ≡ self) }
    {
        let OpenRound { part } = self;
        match part.end_part() {
            Ok(writer) => Ok(SingleSender { writer }),
            Err(part) => Err(OpenRound { part }),
        }
    }

    /// Cancels the round, and returns the sender as it was before.
    pub fn cancel(self) -> SingleSender<A>
        ensures { result ≡ self.before }
    {
        let OpenRound { part } = self;
        SingleSender {
            writer: part.cancel(),
        }
    }
}
