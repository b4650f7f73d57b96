//! Bytes of the sources that wait until the load takes them: those behind the round that is judged
//! next, and all bytes before the guest's table is known.

ghost use Rattle.std.specs.Prelude.{◌≡◌, ◌≤◌, ◌<◌, ◌++◌, ◌↔◌, [], IsTrue, IfOk, OnOk, OnErr, drop, length, replicate};
ghost use Rattle.mig_session.specs.Sources.{waiting_of, with_waiting};

use mig_mem::NoMemory;
use mig_sources::Source;
use std::alloc::{Allocator, Global};
use std::marker::Model;

/// The bytes of one source that wait, in their order.
#[derive(Drop)]
struct Queue<A: Allocator = Global> {
    // those before `from` were taken
    bytes: Vec<u8, A>,
    from: usize,
}

impl<A: Allocator> Model for Queue<A> {
    ghost use Rattle.std.specs.Prelude.{ℕ, List, ◌≤◌, drop, length};

    ghost Value = { List ℕ };

    ghost view = { λ q. drop q.from q.bytes.items };

    ghost invariant = { λ q. q.from ≤ length q.bytes.items };
}

impl<A: Allocator> Queue<A> {
    fn new(alloc: A) -> Queue<A>
        ensures { result ≡ [] }
    {
        Queue {
            bytes: Vec::new(alloc),
            from: 0,
        }
    }

    fn as_slice(&self) -> &[u8]
        ensures { result.now ≡ self.now }
    {
        &self.bytes[self.from..]
    }

    fn is_empty(&self) -> bool
        ensures { IsTrue result ↔ self.now ≡ [] }
    {
        self.as_slice().is_empty()
    }

    fn push(&mut self, piece: &[u8]) -> Result<(), NoMemory>
        ensures ok { OnOk result (self.new ≡ self.old ++ piece.now) }
        ensures err { OnErr result (self.new ≡ self.old) }
    {
        self.bytes.extend_from_slice(piece)?;
        Ok(())
    }

    // Drops the first `count` bytes. Those that are left move to the front once as many were
    // dropped: so a byte is moved twice at most.
    fn skip(&mut self, count: usize)
        requires { count ≤ length self.old }
        ensures { self.new ≡ drop count self.old }
    {
        self.from += count;
        if self.from >= self.bytes.len() / 2 {
            self.bytes.drain(..self.from);
            self.from = 0;
        }
    }
}

/// The bytes of all sources that wait.
#[derive(Drop)]
pub(crate) struct Waiting<A: Allocator = Global> {
    main: Queue<A>,
    channels: Vec<Queue<A>, A>,
}

impl<A: Allocator> Model for Waiting<A> {
    ghost use Rattle.mig_session.specs.Sources.{Waits};

    ghost Value = { Waits };

    ghost view = { λ w. record { main = w.main; channels = w.channels.items } };
}

impl<A: Allocator + Copy> Waiting<A> {
    /// Creates empty queues of a main stream and `channels` channels.
    pub(crate) fn new(alloc: A, channels: usize) -> Result<Waiting<A>, NoMemory>
        ensures { IfOk result (λ w. w ≡ record { main = []; channels = replicate channels [] }) }
    {
        let mut queues = Vec::with_capacity(alloc, channels)?;
        for _ in 0..channels {
            queues.push_reserved(Queue::new(alloc));
        }
        Ok(Waiting {
            main: Queue::new(alloc),
            channels: queues,
        })
    }
}

impl<A: Allocator> Waiting<A> {
    /// Returns the bytes of a source that wait.
    pub(crate) fn of(&self, source: Source) -> &[u8]
        ensures { result.now ≡ waiting_of self.now source }
    {
        match source {
            Source::Main => self.main.as_slice(),
            Source::Channel(j) => match self.channels.get(j) {
                Some(queue) => queue.as_slice(),
                None => &[],
            },
        }
    }

    /// Returns whether no byte of a source waits.
    pub(crate) fn none_of(&self, source: Source) -> bool
        ensures { IsTrue result ↔ waiting_of self.now source ≡ [] }
    {
        self.of(source).is_empty()
    }

    /// Adds bytes of a source. An `Err` changes nothing.
    pub(crate) fn push(&mut self, source: Source, piece: &[u8]) -> Result<(), NoMemory>
        ensures ok { OnOk result (self.new ≡ with_waiting source (waiting_of self.old source ++ piece.now) self.old) }
        ensures err { OnErr result (self.new ≡ self.old) }
    {
        match source {
            Source::Main => self.main.push(piece),
            Source::Channel(j) => {
                if j >= self.channels.len() {
                    return Ok(());
                }
                let queue = &mut self.channels[j];
                queue.push(piece)
            }
        }
    }

    /// Drops the first `count` bytes of a source, which were taken.
    pub(crate) fn skip(&mut self, source: Source, count: usize)
        requires { count ≤ length (waiting_of self.old source) }
        ensures { self.new ≡ with_waiting source (drop count (waiting_of self.old source)) self.old }
    {
        match source {
            Source::Main => self.main.skip(count),
            Source::Channel(j) => {
                if j < self.channels.len() {
                    let queue = &mut self.channels[j];
                    queue.skip(count);
                }
            }
        }
    }
}
