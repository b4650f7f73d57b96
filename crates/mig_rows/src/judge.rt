//! Rounds of packets that are judged and applied to a memory, in one order after another.

ghost use Rattle.std.specs.Prelude.{◌≡◌, All, IfOk};

use crate::show::put_round_fault;
use crate::streams::{feed, reader_of, rounds_of};
use mig_assemble::{Gathered, RoundFault, Target};
use mig_cases::{Case, Done, Trouble, again, put_memory};
use mig_mem::{Table, is_page_size};
use mig_packet::{Packet, PacketRead, read_packet};
use mig_stream::{Mode, StreamReader, StreamRound};
use std::alloc::Global;

/// Up to this many packets are applied in every order. More are applied in the order of the stream
/// and in reverse.
const MOST_IN_EVERY_ORDER: usize = 5;

// Returns the number of orders of `count` packets.
fn orders(count: usize) -> usize {
    let mut orders = 1usize;
    for n in 1..=count {
        orders = orders.saturating_mul(n);
    }
    orders
}

// Returns the packets in order `number`: 0 is the order of the stream, and the last number is the
// reverse.
fn in_order<'a>(
    alloc: Global,
    packets: &[Packet<'a>],
    number: usize,
) -> Result<Vec<Packet<'a>>, Trouble> {
    let mut left = Vec::from_slice(alloc, packets)?;
    let mut ordered = Vec::new(alloc);
    let mut code = number;
    for n in (1..=packets.len()).rev() {
        if left.len() != n {
            return Err(Trouble::Line);
        }
        ordered.push(left.remove(code % n))?;
        code /= n;
    }
    Ok(ordered)
}

// Reads the packets of some bytes.
fn packets_of(alloc: Global, page_size: u64, text: &[u8]) -> Result<Vec<Packet<'_>>, Trouble> {
    if !is_page_size(page_size) {
        return Err(Trouble::Line);
    }
    let mut packets = Vec::new(alloc);
    let mut rest = text;
    for _ in 0..u64::MAX {
        if rest.is_empty() {
            return Ok(packets);
        }
        match read_packet(page_size, rest) {
            PacketRead::Whole(packet, len) => {
                packets.push(packet)?;
                rest = rest.get(len..).ok_or(Trouble::Line)?;
            }
            _ => return Err(Trouble::Line),
        }
    }
    Err(Trouble::Line)
}

// Reads the packets of each stream.
fn packets_of_each<'a>(case: &Case, texts: &'a [Vec<u8>]) -> Result<Vec<Vec<Packet<'a>>>, Trouble> {
    let mut packets = Vec::new(case.alloc);
    for text in texts {
        packets.push(packets_of(case.alloc, case.page_size, text)?)?;
    }
    Ok(packets)
}

// Returns packets with pages of one size, in their order, as a memory takes them.
fn gathered<'a>(
    alloc: Global,
    page_size: u64,
    packets: &[Packet<'a>],
) -> Result<Gathered<'a>, Trouble>
    ensures { IfOk result (λ g. All (λ p. p.page_size ≡ page_size) g) }
{
    let mut gathered = Gathered::new(alloc);
    for packet in packets {
        if packet.page_size() != page_size {
            return Err(Trouble::Line);
        }
        again!(gathered.push(*packet))?;
    }
    Ok(gathered)
}

// Judges a round and applies it to a memory.
fn put_round(
    alloc: Global,
    target: &mut Target,
    round: &StreamRound,
    packets: &[Packet<'_>],
) -> Result<Result<(), RoundFault>, Trouble> {
    let page_size = target.memory().table().page_size();
    let gathered = gathered(alloc, page_size, packets)?;
    let has_room = gathered.len() <= 1000 && target.base() <= 1000 && target.rounds() <= 1000;
    if !has_room || !target.fits(round) {
        return Err(Trouble::Line);
    }
    Ok(again!(target.round(round, &gathered)))
}

/// The streams of rounds, read: stream 0 is a single stream, and each further one has the packets
/// of a round. A round's page records are those of the PART with its number, if there is one.
#[derive(Drop)]
struct Rounds<'a> {
    records: Vec<StreamRound<'static>>,
    packets: Vec<Vec<Packet<'a>>>,
    /// The number of orders in which they are applied.
    orders: usize,
    /// The step from one order to the next.
    step: usize,
}

impl<'a> Rounds<'a> {
    fn new(records: Vec<StreamRound<'static>>, packets: Vec<Vec<Packet<'a>>>) -> Rounds<'a> {
        let mut most = 0;
        for round in &packets {
            most = most.max(round.len());
        }
        let orders = orders(most);
        let step = if most > MOST_IN_EVERY_ORDER {
            orders.saturating_sub(1)
        } else {
            1
        };
        Rounds {
            records,
            packets,
            orders,
            step: step.max(1),
        }
    }

    // Reads the packets of the streams, with the records that a reader of the single stream has.
    fn read(
        case: &Case,
        reader: &mut StreamReader<'static>,
        texts: &'a [Vec<u8>],
    ) -> Result<Rounds<'a>, Trouble> {
        let packets = packets_of_each(case, texts)?;
        Ok(Rounds::new(rounds_of(case.alloc, reader)?, packets))
    }

    fn records_of(&self, round: usize) -> Result<&StreamRound<'static>, Trouble> {
        let part = round.checked_add(1).ok_or(Trouble::Line)?;
        // the last section is END
        let records = match part.checked_add(1) {
            Some(next) if next < self.records.len() => self.records.get(part),
            _ => self.records.first(),
        };
        records.ok_or(Trouble::Line)
    }
}

// Applies all rounds to a memory, and writes the result of each.
fn put_all(
    out: &mut String,
    alloc: Global,
    target: &mut Target,
    rounds: &Rounds<'_>,
    order: usize,
) -> Done {
    for (i, packets) in rounds.packets.iter().enumerate() {
        let most = orders(packets.len()).max(1);
        // the reverse of all is the reverse of each
        let number = if order == rounds.orders.saturating_sub(1) {
            most.saturating_sub(1)
        } else {
            order % most
        };
        let ordered = in_order(alloc, packets, number)?;
        let records = rounds.records_of(i)?;
        match put_round(alloc, target, records, &ordered)? {
            Ok(()) => out.push_str("ok")?,
            Err(fault) => put_round_fault(out, fault)?,
        }
        out.push_str("; ")?;
    }
    put_target(out, target)
}

// Writes a memory's content after its rounds.
fn put_target(out: &mut String, target: &Target) -> Done {
    write!(out, "rounds {} base {};", target.rounds(), target.base())?;
    put_memory(out, target.memory())
}

// Applies a section to a memory, and writes the result.
fn put_section(out: &mut String, target: &mut Target, section: &StreamRound) -> Done {
    if !target.fits(section) || target.rounds() > 1000 {
        return Ok(out.push_str("no fit; ")?);
    }
    target.section(section);
    write!(out, "{} put,", target.rounds())?;
    put_memory(out, target.memory())?;
    Ok(out.push_str("; ")?)
}

// Creates a reader, and feeds it a single stream.
fn reader_of_single(case: &Case, text: &[u8]) -> Result<StreamReader<'static>, Trouble> {
    let mut reader = reader_of(case, Mode::Single)?;
    feed(&mut reader, text)?;
    Ok(reader)
}

/// Writes the results of the sections of the last stream, applied one after another to a memory of
/// the guest's table.
pub fn sections(out: &mut String, case: &mut Case) -> Done {
    let sections = sections_of(case)?;
    put_sections(out, case.guest()?.image.table(), &sections)
}

// Reads the sections of the last stream.
fn sections_of(case: &Case) -> Result<Vec<StreamRound<'static>>, Trouble> {
    let mut reader = reader_of_single(case, case.texts.last().ok_or(Trouble::Line)?)?;
    rounds_of(case.alloc, &mut reader)
}

fn put_sections(out: &mut String, table: &Table, sections: &[StreamRound]) -> Done {
    let mut target = Target::new(*out.allocator(), table)?;
    for section in sections {
        put_section(out, &mut target, section)?;
    }
    write!(out, "rounds {} base {};", target.rounds(), target.base())?;
    put_memory(out, &target.into_memory())
}

// Returns the result of the rounds with their packets in order `order`.
fn answer_in(
    alloc: Global,
    table: &Table,
    rounds: &Rounds<'_>,
    order: usize,
) -> Result<String, Trouble> {
    let mut target = Target::new(alloc, table)?;
    let mut answer = String::new(alloc);
    put_all(&mut answer, alloc, &mut target, rounds, order)?;
    Ok(answer)
}

// Writes the result of the rounds in every order.
fn judge_all(out: &mut String, alloc: Global, table: &Table, rounds: &Rounds<'_>) -> Done {
    let wanted = answer_in(alloc, table, rounds, 0)?;
    for order in (0..rounds.orders).step_by(rounds.step.max(1)) {
        let answer = answer_in(alloc, table, rounds, order)?;
        if answer.as_str() != wanted.as_str() {
            write!(out, "in order {order} {answer}, and in the text's ")?;
            break;
        }
    }
    Ok(out.push_str(&wanted)?)
}

/// Writes the result of the rounds, which has to be the same in every order.
pub fn judge(out: &mut String, case: &Case) -> Done {
    let (stream, texts) = case.texts.split_first().ok_or(Trouble::Line)?;
    let mut reader = reader_of_single(case, stream)?;
    let rounds = Rounds::read(case, &mut reader, texts)?;
    judge_all(
        out,
        case.alloc,
        reader.table().ok_or(Trouble::Line)?,
        &rounds,
    )
}
