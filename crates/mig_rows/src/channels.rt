//! The rounds of a case, sent on its channels, each with a worker on a thread of its own.
//!
//! The threads' schedule decides which packets a channel has, so they differ from run to run. The
//! answer is the same in all runs: lengths, counts, and the packets of all channels in the order of
//! their numbers. The rules that each channel keeps, whatever its packets, are tested as well: a
//! channel that breaks them is reported.

use crate::rounds::Rounds;
use mig_cases::{Case, Done, Guest, Trouble, Words, again, put_packet, reader_of_channel};
use mig_packet::{ChannelReader, ChannelState, OpenGate, Packet, PacketRound};
use mig_send::{MultiSender, SendFault, Sent};
use std::alloc::Global;
use std::thread::Threads;

// Returns a sender of a case's guest that has sent these rounds, with the batch limit `limit`.
fn sender_of<R: Threads + Sync>(
    rt: &R,
    case: &mut Case,
    rounds: &[Guest],
    limit: usize,
) -> Result<Result<MultiSender, SendFault>, Trouble> {
    let (alloc, uuid, channels) = (case.alloc, case.uuid, case.channels);
    let table = case.guest()?.image.table();
    let mut sender = match MultiSender::new(alloc, table, uuid, channels, limit) {
        Ok(sender) => sender,
        Err(SendFault::NoMemory) => return Err(Trouble::NoMemory),
        Err(fault) => return Ok(Err(fault)),
    };
    for round in rounds {
        if let Err(fault) = again!(sender.round(rt, &round.image, &round.dirty, &OpenGate)) {
            return Ok(Err(fault));
        }
    }
    Ok(Ok(sender))
}

fn finish(sender: MultiSender) -> Result<Sent, Trouble> {
    match sender.finish() {
        Ok(sent) => Ok(sent),
        Err(sender) => sender.finish().ok().ok_or(Trouble::NoMemory),
    }
}

impl Rounds {
    /// `sent_main LIMIT`: the main stream of the rounds.
    pub fn sent_main<R: Threads + Sync>(&mut self, rt: &R, mut words: Words) -> Done {
        let sent = self.sent_on_channels(rt, words.size()?)?;
        self.case.texts.push(sent.main)?;
        Ok(())
    }

    /// `sent_channel LIMIT CHANNEL`: the bytes of a channel.
    pub fn sent_channel<R: Threads + Sync>(&mut self, rt: &R, mut words: Words) -> Done {
        let mut channels = self.sent_on_channels(rt, words.size()?)?.channels;
        let channel = words.size()?;
        if channel >= channels.len() {
            return Err(Trouble::Line);
        }
        self.case.texts.push(channels.swap_remove(channel))?;
        Ok(())
    }

    // Returns the streams of the rounds. A fault is an error.
    fn sent_on_channels<R: Threads + Sync>(
        &mut self,
        rt: &R,
        limit: usize,
    ) -> Result<Sent, Trouble> {
        let sender = sender_of(rt, &mut self.case, &self.rounds, limit)?;
        finish(sender.ok().ok_or(Trouble::Line)?)
    }

    /// `multi LIMIT`: the content of all channels together, or the fault that is returned.
    pub fn multi<R: Threads + Sync>(&mut self, out: &mut String, rt: &R, mut words: Words) -> Done {
        match sender_of(rt, &mut self.case, &self.rounds, words.size()?)? {
            Ok(sender) => put_sender(out, &self.case, self.rounds.len(), sender),
            Err(fault) => Ok(write!(out, "fault {}", fault.number())?),
        }
    }
}

// Writes the content that a sender has sent, which has to be `count` rounds.
fn put_sender(out: &mut String, case: &Case, count: usize, sender: MultiSender) -> Done {
    let (rounds, base) = (sender.rounds(), sender.base());
    let Sent { main, channels } = finish(sender)?;
    let mut len = 0usize;
    for text in &channels {
        len = len.saturating_add(text.len());
    }
    write!(out, "main {} channels {len};", main.len())?;
    write!(out, " rounds {rounds} base {base};")?;
    let rounds = rounds_of_each(out, case, &channels, count)?;
    if count == 0 {
        out.push_str(" no round")?;
    }
    for round in 0..count {
        if round > 0 {
            out.push_str(" |")?;
        }
        put_round(out, &rounds, round)?;
    }
    Ok(())
}

// Returns the rounds of each channel. Reports a channel that isn't closed, hasn't its own hello, or
// hasn't `count` rounds.
fn rounds_of_each(
    out: &mut String,
    case: &Case,
    texts: &[Vec<u8>],
    count: usize,
) -> Result<Vec<Vec<PacketRound>>, Trouble> {
    let mut channels = Vec::new(case.alloc);
    for (channel, text) in texts.iter().enumerate() {
        let mut reader = reader_of_channel(case, text, text.len())?;
        let is_closed = reader.state() == ChannelState::Closed;
        let is_own = reader
            .hello_id()
            .is_some_and(|id| usize::from(id) == channel);
        let rounds = rounds_of(case.alloc, &mut reader)?;
        if !is_closed || !is_own || rounds.len() != count {
            write!(out, " channel {channel} is another's, or not whole;")?;
        }
        channels.push(rounds)?;
    }
    Ok(channels)
}

// Returns the complete rounds that a reader has.
fn rounds_of(alloc: Global, reader: &mut ChannelReader) -> Result<Vec<PacketRound>, Trouble> {
    let mut rounds = Vec::new(alloc);
    for _ in 0..u64::MAX {
        match again!(reader.take_round())? {
            Some(round) => rounds.push(round)?,
            None => return Ok(rounds),
        }
    }
    Err(Trouble::Line)
}

// Writes the packets that all channels have in a round, in the order of their numbers. Reports a
// channel whose numbers don't rise.
fn put_round(out: &mut String, channels: &[Vec<PacketRound>], round: usize) -> Done {
    let mut packets = Vec::new(*out.allocator());
    for (channel, rounds) in channels.iter().enumerate() {
        let Some(own) = rounds.get(round) else {
            continue;
        };
        let own = own.packets()?;
        if !is_in_order(&own) {
            write!(out, " channel {channel} is out of order;")?;
        }
        packets.extend_from_slice(&own)?;
    }
    packets.sort_unstable_by_key(|packet| packet.number());
    put_packets(out, &packets)
}

// Returns whether a channel's packets have rising numbers, and only the last one is a SYNC packet.
fn is_in_order(packets: &[Packet<'_>]) -> bool {
    let mut before = None;
    let mut is_over = false;
    for packet in packets {
        if is_over || before.is_some_and(|number| number >= packet.number()) {
            return false;
        }
        before = Some(packet.number());
        is_over = packet.sync();
    }
    is_over
}

// Writes packets in a row. SYNC packets without pages and with consecutive numbers are one entry,
// `#2-4 sync`.
fn put_packets(out: &mut String, packets: &[Packet<'_>]) -> Done {
    let mut run = None;
    for packet in packets {
        let number = packet.number();
        match run {
            Some((first, last)) if is_bare(packet) && number.checked_sub(1) == Some(last) => {
                run = Some((first, number));
            }
            _ => {
                put_run(out, run)?;
                run = None;
                if is_bare(packet) {
                    run = Some((number, number));
                } else {
                    put_packet(out, packet)?;
                }
            }
        }
    }
    put_run(out, run)
}

// Returns whether it is a SYNC packet without pages and without an id.
fn is_bare(packet: &Packet<'_>) -> bool {
    let has_page = packet.normal_len() > 0 || packet.zero_len() > 0;
    packet.sync() && packet.id().is_empty() && !has_page
}

// Writes the SYNC packets with the numbers from one to another.
fn put_run(out: &mut String, run: Option<(u64, u64)>) -> Done {
    match run {
        Some((first, last)) if first < last => write!(out, " #{first}-{last} sync")?,
        Some((first, _)) => write!(out, " #{first} sync")?,
        None => {}
    }
    Ok(())
}
