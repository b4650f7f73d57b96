//! Loads a machine's stream, as QEMU writes it, from bytes that are there already: at once, in
//! pieces, and over several channels. Finds where RAM's part ends: the devices' bytes follow it.

use mig_load_types::{LoadSettings, Loaded};
use mig_mem::{MAX_TOTAL, NoMemory, PAGE_SIZE_4K};
use mig_session::{Session, Source};
use mig_single_load::{SingleLoader, load_single_with};
use mig_stream::{Frame, Mode, StreamReader};
use std::alloc::Global;

/// Why a stream can't be loaded.
#[derive(Clone, Copy, Debug, PartialEq, Eq)]
pub enum Trouble {
    /// The session has no such source, or more bytes than a load takes.
    Input,
    /// An allocation was refused.
    NoMemory,
}

impl From<NoMemory> for Trouble {
    fn from(_: NoMemory) -> Trouble {
        Trouble::NoMemory
    }
}

/// Loads a machine's stream at once. RAM's part of it ends at `closed_at` of the load.
pub fn load_machine(alloc: Global, text: &[u8]) -> Loaded {
    let settings = LoadSettings::new(PAGE_SIZE_4K, MAX_TOTAL).with_frame(Frame::Machine);
    load_single_with(alloc, settings, text)
}

/// Loads a machine's stream in pieces of `len` bytes. A `len` of 0 counts as 1.
///
/// # Errors
///
/// `NoMemory`: an allocation was refused. `Input`: the stream is longer than `MAX_TOTAL`.
pub fn load_in_pieces(alloc: Global, text: &[u8], len: usize) -> Result<Loaded, Trouble> {
    let settings = LoadSettings::new(PAGE_SIZE_4K, MAX_TOTAL).with_frame(Frame::Machine);
    let mut loader = SingleLoader::new(alloc, settings);
    for piece in text.chunks(len.max(1)) {
        if loader.ended() || loader.fed() > MAX_TOTAL || piece.len() as u64 > MAX_TOTAL {
            return Err(Trouble::Input);
        }
        loader.feed(piece).ok().ok_or(Trouble::NoMemory)?;
    }
    Ok(loader.finish())
}

/// Returns the number of bytes of a main stream up to the end of RAM's part, fed in pieces of `len`
/// bytes. None if the stream isn't closed.
///
/// # Errors
///
/// `NoMemory`: an allocation was refused. `Input`: the stream has 2^64 bytes or more.
pub fn main_closed_at(alloc: Global, text: &[u8], len: usize) -> Result<Option<u64>, Trouble> {
    let frame = Frame::Machine;
    let mut reader = StreamReader::new_with(
        alloc,
        frame,
        Mode::Main,
        PAGE_SIZE_4K,
        MAX_TOTAL,
        None,
    );
    for piece in text.chunks(len.max(1)) {
        if reader.ended() || reader.fed().checked_add(piece.len() as u64).is_none() {
            return Err(Trouble::Input);
        }
        reader.feed(piece)?;
    }
    Ok(reader.closed_at())
}

/// Feeds all bytes of `source` in pieces of `len` bytes, and ends it.
///
/// # Errors
///
/// `NoMemory`: an allocation was refused, and the session has failed. `Input`: the session lacks
/// the source, or has ended it.
pub fn feed_all(
    session: &mut Session,
    source: Source,
    text: &[u8],
    len: usize,
) -> Result<(), Trouble> {
    for piece in text.chunks(len.max(1)) {
        if !session.has(source) {
            return Err(Trouble::Input);
        }
        if session.ended(source) || !session.has_room(source, piece.len()) {
            return Err(Trouble::Input);
        }
        session.feed(source, piece)?;
    }
    if !session.has(source) {
        return Err(Trouble::Input);
    }
    session.end(source);
    Ok(())
}

#[cfg(test)]
mod tests {
    use super::*;
    use mig_answer::Verdict;
    use mig_fixtures::{at, is_full, places_of, set, zeroed};
    use mig_mem::{Dirty, Memory};
    use mig_packet::OpenGate;
    use mig_send::{MultiSender, Sent, SingleSender};
    use std::alloc::AllocGlobal;
    use std::process::Abort;
    use std::thread::Threads;
    use uuid::Uuid;

    // The bytes of a device after RAM's part.
    const DEVICE: &[u8] = b"\x04 a device";

    // A guest of two pages, the second one filled with nines and dirty.
    fn guest(rt: &(impl AllocGlobal + Abort)) -> (Memory, Dirty) {
        let mut memory = zeroed(rt.alloc(), &[("pc.ram", 2)]).expect(rt, "a memory");
        let dirty = places_of(rt.alloc(), memory.table(), &[at(0, 1)]).expect(rt, "a set");
        for offset in 4096..8192u64 {
            assert!(rt; set(&mut memory, 0, offset, 9));
        }
        (memory, dirty)
    }

    // The stream of machine `pc` with one round, and a device's bytes after it. Returns the number
    // of bytes before these, too.
    fn machine(rt: &(impl AllocGlobal + Abort)) -> (Vec<u8>, u64) {
        let (memory, dirty) = guest(rt);
        let made = SingleSender::with_configuration(rt.alloc(), memory.table(), b"pc");
        let (mut text, mut sender) = made.expect(rt, "a sender");
        assert!(rt; sender.round(&memory, &dirty) == Ok(()));
        let rest = sender.finish_open().ok().expect(rt, "a stream");
        assert!(rt; text.extend_from_slice(&rest).is_ok());
        let end = text.len() as u64;
        assert!(rt; text.extend_from_slice(DEVICE).is_ok());
        (text, end)
    }

    // Returns whether a load has the guest's memory and the byte at which RAM's part ends.
    fn is_guest(loaded: &Loaded, end: u64) -> bool {
        let memory = loaded.memory.as_ref();
        loaded.verdict == Ok(())
            && loaded.closed_at == Some(end)
            && loaded.valid_up_to == Some(end)
            && loaded.missing == Some(1)
            && memory.is_some_and(|it| is_full(it, at(0, 0), 0) && is_full(it, at(0, 1), 9))
    }

    #[test]
    fn at_once_and_in_pieces(rt: HostRuntime) {
        let (text, end) = machine(&rt);
        assert!(rt; is_guest(&load_machine(rt.alloc(), &text), end));
        let pieces = load_in_pieces(rt.alloc(), &text, 7).expect(&rt, "a load");
        assert!(rt; is_guest(&pieces, end));
    }

    // The main stream of machine `pc` and its channel, with one round, and the number of bytes of
    // the main stream, which has a device's bytes after them.
    fn channels(rt: &(impl AllocGlobal + Abort + Threads + Sync)) -> (Sent, u64) {
        let (memory, dirty) = guest(rt);
        let table = memory.table();
        let made = MultiSender::with_configuration(rt.alloc(), table, Uuid::nil(), 1, 8, b"pc");
        let (first, mut sender) = made.expect(rt, "a sender");
        assert!(rt; sender.round(rt, &memory, &dirty, &OpenGate) == Ok(()));
        let mut sent = sender.finish_open().ok().expect(rt, "streams");
        let mut main = first;
        assert!(rt; main.extend_from_slice(&sent.main).is_ok());
        let end = main.len() as u64;
        assert!(rt; main.extend_from_slice(DEVICE).is_ok());
        sent.main = main;
        (sent, end)
    }

    // Feeds a session both streams, and returns whether it is done with the guest's memory.
    fn is_loaded(alloc: Global, sent: &Sent) -> Result<bool, Trouble> {
        let settings = LoadSettings::new(PAGE_SIZE_4K, MAX_TOTAL).with_frame(Frame::Machine);
        let mut session = Session::new_with(alloc, settings, &Uuid::nil(), 1)?;
        feed_all(&mut session, Source::Main, &sent.main, 7)?;
        let channel = sent.channels.first().ok_or(Trouble::Input)?;
        feed_all(&mut session, Source::Channel(0), channel, 1000)?;
        let memory = session.memory();
        Ok(
            session.verdict() == Verdict::Done
                && memory.is_some_and(|it| is_full(it, at(0, 0), 0) && is_full(it, at(0, 1), 9)),
        )
    }

    #[test]
    fn over_a_channel(rt: HostRuntime) {
        let (sent, end) = channels(&rt);
        assert!(rt; main_closed_at(rt.alloc(), &sent.main, 7) == Ok(Some(end)));
        assert!(rt; is_loaded(rt.alloc(), &sent) == Ok(true));
    }
}
