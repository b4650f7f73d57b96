//! A worker of one channel, for callers with threads of their own: its caller steps it, and each
//! step writes one packet. `MultiRound` gives out a worker for each channel of a sender.
//!
//! A worker starts no thread and waits for no other. It shares the round's deal with the other
//! workers, and nothing else that is written.

ghost use Rattle.std.specs.Prelude.{◌≡◌, ◌↔◌, ◌++◌, ◌⊎◌, None, [], List, ℕ, IsTrue, IfSome, IsSomeAnd, OnOk, OnErr, length};
ghost use Rattle.std.specs.Option.{option_copied};
ghost use Rattle.mig_mem.specs.Image.{Image};
ghost use Rattle.mig_send.specs.Batches.{IsBatch};
ghost use Rattle.mig_send.specs.Packing.{IsPrefix};
ghost use Rattle.mig_send.specs.ChannelWork.{IsHand, HasNumber, HasClaimed, HasEnded, HasStepped, HasPacked, IsStep, after_packet, hand_bytes, batch_in};
ghost use Rattle.mig_send.specs.Finding.{HasFound, IsFinder, batch_held};
ghost use Rattle.mig_send.specs.Copies.{HasPackedEach, PacksPages};
ghost use Rattle.mig_send.specs.Heads.{WritesHead, PutsHead};

use crate::Batch;
use crate::finder::Finder;
use crate::packed::{Offsets, append_head, append_packet};
use crate::round_work::RoundWork;
use crate::share::put_sync;
use mig_deal::{Deal, Drawn, Seat, Spent};
use mig_mem::{GuestPages, NoMemory, Table};
use std::alloc::{Allocator, Global};
use std::fmt::{self, Debug, Formatter};
use std::marker::Model;
use std::mem;
use std::sync::Arc;

/// The state of a worker.
#[derive(Drop)]
pub(crate) enum Hand {
    /// A seat to draw with.
    Drawing(Seat),
    /// A number whose batch isn't packed yet.
    Claimed(Seat, u64),
    /// Its last number, whose SYNC packet isn't written yet.
    Ending(Spent, u64),
    /// Its spent seat.
    Ended(Spent),
    /// No number, while a step runs.
    Moving,
}

/// Packs batches of one round for one channel, a packet at each step. Several workers of a round
/// run at once, each on a thread of its own; each holds the bytes of its channel until they are
/// drained. If a worker is dropped, the round can't be ended, and the sender's streams are lost.
#[derive(Drop)]
pub struct ChannelWorker<A: Allocator = Global> {
    pub(crate) shared: Arc<RoundWork<A>, A>,
    pub(crate) channel: usize,
    pub(crate) hand: Hand,
    pub(crate) text: Vec<u8, A>,
    pub(crate) offsets: Offsets<A>,
    pub(crate) finder: Finder<A>,
}

impl<A: Allocator> Model for ChannelWorker<A> {
    ghost use Rattle.std.specs.Arc.{arc_value};
    ghost use Rattle.mig_send.specs.ChannelWork.{ChannelWork, IsHand};
    ghost use Rattle.mig_send.specs.Finding.{HasFound};

    ghost Value = { ChannelWork };

    ghost view = { λ w. record { terms = arc_value w.shared; channel = w.channel; hand = w.hand; text = w.text.items } };

    ghost invariant = { λ w. IsHand (arc_value w.shared).deal w.hand × HasFound (arc_value w.shared) w.hand w.finder };
}

impl<A: Allocator> Debug for ChannelWorker<A> {
    fn fmt<W: fmt::Write>(&self, f: &mut Formatter<W>) -> fmt::Result {
        f.pad("ChannelWorker { .. }")
    }
}

// Draws a number, if the worker has none and one is left to draw.
fn claimed<A: Allocator>(deal: &Deal<A>, hand: Hand) -> Hand
    requires { IsHand deal.now hand }
    ensures hand { IsHand deal.now result }
    ensures claimed { HasClaimed deal.now hand result }
{
    match hand {
        Hand::Drawing(seat) => match deal.draw(seat) {
            Drawn::Work(number, next) => Hand::Claimed(next, number),
            Drawn::Last(last, spent) => Hand::Ending(spent, last),
        },
        Hand::Claimed(seat, number) => Hand::Claimed(seat, number),
        Hand::Ending(spent, last) => Hand::Ending(spent, last),
        Hand::Ended(spent) => Hand::Ended(spent),
        Hand::Moving => Hand::Moving,
    }
}

// Appends the packet of the worker's number, if it has one. After an `Err` a part of it may have
// been appended.
fn put_in_hand<A: Allocator, M: GuestPages>(
    work: &RoundWork<A>,
    hand: &Hand,
    finder: &Finder<A>,
    text: &mut Vec<u8, A>,
    offsets: &mut Offsets<A>,
    memory: &M,
) -> Result<(), NoMemory>
    requires table { (M.image memory.now).table ≡ work.now.table }
    requires hand { IsHand work.now.deal hand.now }
    requires found { HasFound work.now hand.now finder.now }
    ensures ok { OnOk result (text.new.items ≡ text.old.items ++ hand_bytes (M.image memory.now) work.now hand.now) }
    ensures prefix { IsPrefix text.old.items text.new.items }
    ensures refused { OnErr result (HasNumber hand.now) }
{
    match hand {
        Hand::Claimed(_, number) => {
            let Some(batch) = batch_of(work, hand, finder) else {
                unreachable!()
            };
            append_packet(text, offsets, memory, batch, *number)
        }
        Hand::Ending(_, last) => put_sync(text, memory, *last),
        Hand::Drawing(_) => Ok(()),
        Hand::Ended(_) => Ok(()),
        Hand::Moving => Ok(()),
    }
}

// Returns the state of the worker after the packet of `hand` is written.
fn written(hand: Hand) -> Hand
    ensures { result ≡ after_packet hand }
{
    match hand {
        Hand::Drawing(seat) => Hand::Drawing(seat),
        Hand::Claimed(seat, _) => Hand::Drawing(seat),
        Hand::Ending(spent, _) => Hand::Ended(spent),
        Hand::Ended(spent) => Hand::Ended(spent),
        Hand::Moving => Hand::Moving,
    }
}

// Draws a number for `hand`, if it has none and one is left, and finds the batch that it claims.
fn claim_in<A: Allocator>(work: &RoundWork<A>, hand: &mut Hand, finder: &mut Finder<A>)
    requires hand { IsHand work.now.deal hand.old }
    requires found { HasFound work.now hand.old finder.old }
    ensures hand { IsHand work.now.deal hand.new }
    ensures claimed { HasClaimed work.now.deal hand.old hand.new }
    ensures found { HasFound work.now hand.new finder.new }
{
    *hand = claimed(&work.deal, mem::replace(hand, Hand::Moving));
    find_batch(work, hand, finder);
}

// Finds the batch that the number of `hand` claims, if it isn't found yet.
fn find_batch<A: Allocator>(work: &RoundWork<A>, hand: &Hand, finder: &mut Finder<A>)
    requires hand { IsHand work.now.deal hand.now }
    requires finder { IsFinder work.now finder.old }
    requires held { (batch_held finder.old.buffer ≡ None) ⊎ (batch_held finder.old.buffer ≡ batch_in work.now hand.now) }
    ensures { HasFound work.now hand.now finder.new }
{
    if finder.batch().is_some() {
        return;
    }
    if let Hand::Claimed(_, number) = hand {
        let _count = work.len();
        finder.find(work, *number - work.deal.base());
    }
}

// Returns the batch that the number of `hand` claims.
fn batch_of<'a, A: Allocator>(
    work: &RoundWork<A>,
    hand: &Hand,
    finder: &'a Finder<A>,
) -> Option<&'a Batch<A>>
    requires hand { IsHand work.now.deal hand.now }
    requires found { HasFound work.now hand.now finder.now }
    ensures value { option_copied result ≡ batch_in work.now hand.now }
    ensures batch { IfSome result (λ batch. IsBatch work.now.table batch.now) }
{
    let _count = work.len();
    finder.batch()
}

// Takes one step, on the fields of a worker.
fn step_parts<A: Allocator, M: GuestPages>(
    work: &RoundWork<A>,
    hand: &mut Hand,
    finder: &mut Finder<A>,
    text: &mut Vec<u8, A>,
    offsets: &mut Offsets<A>,
    memory: &M,
) -> Result<(), NoMemory>
    requires table { (M.image memory.now).table ≡ work.now.table }
    requires hand { IsHand work.now.deal hand.old }
    requires found { HasFound work.now hand.old finder.old }
    ensures hand { IsHand work.now.deal hand.new }
    ensures found { HasFound work.now hand.new finder.new }
    ensures step { IsStep (M.image memory.now) work.now result hand.old hand.new text.old.items text.new.items }
{
    claim_in(work, hand, finder);
    let len = text.len();
    match put_packet(work, hand, finder, text, offsets, memory) {
        Ok(()) => {
            *hand = written(mem::replace(hand, Hand::Moving));
            Ok(())
        }
        Err(NoMemory) => {
            text.truncate(len);
            Err(NoMemory)
        }
    }
}

// Appends the packet of the worker's number, if it has one, and forgets its batch. After an `Err` a
// part of it may have been appended, and the batch is kept.
fn put_packet<A: Allocator, M: GuestPages>(
    work: &RoundWork<A>,
    hand: &Hand,
    finder: &mut Finder<A>,
    text: &mut Vec<u8, A>,
    offsets: &mut Offsets<A>,
    memory: &M,
) -> Result<(), NoMemory>
    requires table { (M.image memory.now).table ≡ work.now.table }
    requires hand { IsHand work.now.deal hand.now }
    requires found { HasFound work.now hand.now finder.old }
    ensures ok { OnOk result (text.new.items ≡ text.old.items ++ hand_bytes (M.image memory.now) work.now hand.now) }
    ensures forgets { OnOk result (HasFound work.now (after_packet hand.now) finder.new) }
    ensures prefix { IsPrefix text.old.items text.new.items }
    ensures refused { OnErr result (HasNumber hand.now) }
    ensures kept { OnErr result (HasFound work.now hand.now finder.new) }
{
    put_in_hand(work, hand, finder, text, offsets, memory)?;
    finder.forget()
}

// Appends the head of the packet of the batch that the worker's number claims.
fn put_head_in<A: Allocator>(
    work: &RoundWork<A>,
    hand: &Hand,
    finder: &Finder<A>,
    text: &mut Vec<u8, A>,
    offsets: &mut Offsets<A>,
    zeros: &[bool],
) -> Result<(), NoMemory>
    requires hand { IsHand work.now.deal hand.now }
    requires found { HasFound work.now hand.now finder.now }
    requires zeros { IsSomeAnd (batch_in work.now hand.now) (λ batch. length zeros.now ≡ length batch.pages) }
    ensures ok { OnOk result (WritesHead work.now hand.now zeros.now text.old.items text.new.items) }
    ensures err { OnErr result (text.new.items ≡ text.old.items) }
{
    match hand {
        Hand::Claimed(_, number) => {
            let Some(batch) = batch_of(work, hand, finder) else {
                unreachable!()
            };
            append_head(text, offsets, work.table(), batch, *number, zeros)
        }
        Hand::Drawing(_) => unreachable!(),
        Hand::Ending(_, _) => unreachable!(),
        Hand::Ended(_) => unreachable!(),
        Hand::Moving => unreachable!(),
    }
}

// Writes the head of a packet, on the fields of a worker.
fn head_parts<A: Allocator>(
    work: &RoundWork<A>,
    hand: &mut Hand,
    finder: &mut Finder<A>,
    text: &mut Vec<u8, A>,
    offsets: &mut Offsets<A>,
    zeros: &[bool],
) -> Result<(), NoMemory>
    requires hand { IsHand work.now.deal hand.old }
    requires found { HasFound work.now hand.old finder.old }
    requires zeros { IsSomeAnd (batch_in work.now hand.old) (λ batch. length zeros.now ≡ length batch.pages) }
    ensures hand { IsHand work.now.deal hand.new }
    ensures found { HasFound work.now hand.new finder.new }
    ensures ok { OnOk result ((hand.new ≡ after_packet hand.old) × WritesHead work.now hand.old zeros.now text.old.items text.new.items) }
    ensures err { OnErr result ((hand.new ≡ hand.old) × (text.new.items ≡ text.old.items)) }
{
    let before = text.len();
    put_head_in(work, hand, finder, text, offsets, zeros)?;
    match finder.forget() {
        Ok(()) => {
            let sent = mem::replace(hand, Hand::Moving);
            *hand = written(sent);
            Ok(())
        }
        Err(NoMemory) => {
            text.truncate(before);
            Err(NoMemory)
        }
    }
}

impl<A: Allocator> ChannelWorker<A> {
    /// Returns the table whose pages the worker sends.
    pub fn table(&self) -> &Table<A>
        ensures { result.now ≡ self.now.terms.table }
    {
        self.shared.table()
    }

    /// Returns the number of its channel.
    pub fn channel(&self) -> usize
        ensures { result ≡ self.now.channel }
    {
        self.channel
    }

    /// Returns whether it has written its SYNC packet, after which a step does nothing.
    pub fn has_ended(&self) -> bool
        ensures { IsTrue result ↔ HasEnded self.now.hand }
    {
        matches!(self.hand, Hand::Ended(_))
    }

    /// Draws the number of the packet that the next step writes. If the worker has a number whose
    /// packet isn't written yet, or has ended, nothing changes.
    ///
    /// A step draws its number itself. `claim` is for a caller that needs to know the pages of the
    /// packet before it is written (`batch`), as one does who copies them while the guest runs.
    pub fn claim(&mut self)
        ensures claimed { HasClaimed self.old.terms.deal self.old.hand self.new.hand }
        ensures hand { IsHand self.new.terms.deal self.new.hand }
        ensures rest { self.new ≡ record self.old { hand = self.new.hand } }
        ensures packed { (image : Image) (before whole : List ℕ) → HasPacked image before whole self.old → HasPacked image before whole self.new }
        ensures packed_each { (memories : ℕ → Image) (before whole : List ℕ) → HasPackedEach memories before whole self.old → HasPackedEach memories before whole self.new }
    {
        claim_in(&self.shared, &mut self.hand, &mut self.finder);
    }

    /// Returns the batch whose packet the next step writes. `None` before the worker has drawn a
    /// number for it (`claim`), if the next packet is the SYNC packet, and after that packet.
    pub fn batch(&self) -> Option<&Batch<A>>
        ensures value { option_copied result ≡ batch_in self.now.terms self.now.hand }
        ensures batch { IfSome result (λ batch. IsBatch self.now.terms.table batch.now) }
    {
        batch_of(&self.shared, &self.hand, &self.finder)
    }

    /// Writes one packet: that of the next batch that no worker of the round has, or, if none is
    /// left, the channel's SYNC packet.
    ///
    /// The packet depends on the pages of that batch, and on no other page of `memory`. So a guest
    /// may run on while a round is sent: call `claim`, copy the pages of `batch`, and pass a memory
    /// that has the copies. The round is sent of an image that has the pages which its steps were
    /// passed (`MultiRound::end_round`).
    ///
    /// # Errors
    ///
    /// `NoMemory`: an allocation was refused. Nothing was written, and the next step writes the
    /// packet.
    pub fn step<M: GuestPages>(&mut self, memory: &M) -> Result<(), NoMemory>
        requires table { (M.image memory.now).table ≡ self.old.terms.table }
        ensures step { HasStepped (M.image memory.now) result self.old self.new }
        ensures packed { (before drained : List ℕ) → HasPacked (M.image memory.now) before (drained ++ self.old.text) self.old
            → HasPacked (M.image memory.now) before (drained ++ self.new.text) self.new }
        ensures pages { PacksPages (M.image memory.now) result self.old self.new }
    {
        step_parts(
            &self.shared,
            &mut self.hand,
            &mut self.finder,
            &mut self.text,
            &mut self.offsets,
            memory,
        )
    }

    /// Writes the head of the next packet, whose pages the caller sends from where they lie, with
    /// no copy. Call `claim` before, and pass for each page of `batch`, in its order, whether it is
    /// zeros. What the channel gets then are the worker's bytes, drained or not, and after them the
    /// contents of the other pages, in the order of the batch.
    ///
    /// The packet is that of the contents which are sent. So a guest may run on: what it writes
    /// meanwhile is dirty, and is sent in a later round. A page that isn't zeros when it is tested
    /// and is when it is sent is loaded all the same, but no contract says so.
    ///
    /// # Errors
    ///
    /// `NoMemory`: an allocation was refused. Nothing was written, and the call can be made again.
    pub fn put_head(&mut self, zeros: &[bool]) -> Result<(), NoMemory>
        requires zeros { IsSomeAnd (batch_in self.old.terms self.old.hand) (λ batch. length zeros.now ≡ length batch.pages) }
        ensures head { OnOk result (PutsHead zeros.now self.old self.new) }
        ensures err { OnErr result (self.new ≡ self.old) }
    {
        head_parts(
            &self.shared,
            &mut self.hand,
            &mut self.finder,
            &mut self.text,
            &mut self.offsets,
            zeros,
        )
    }

    /// Moves the bytes of its channel that were written and not drained yet into `bytes`. The
    /// buffer's old bytes are dropped, and its room is used for the bytes that are written next. It
    /// allocates nothing.
    pub fn drain_into(&mut self, bytes: &mut Vec<u8, A>)
        ensures all { bytes.new.items ≡ self.old.text }
        ensures rest { self.new ≡ record self.old { text = [] } }
        ensures packed { (image : Image) (before drained : List ℕ) → HasPacked image before (drained ++ self.old.text) self.old
            → HasPacked image before ((drained ++ bytes.new.items) ++ self.new.text) self.new }
        ensures packed_each { (memories : ℕ → Image) (before drained : List ℕ) → HasPackedEach memories before (drained ++ self.old.text) self.old
            → HasPackedEach memories before ((drained ++ bytes.new.items) ++ self.new.text) self.new }
    {
        bytes.clear();
        mem::swap(&mut self.text, bytes);
    }
}
