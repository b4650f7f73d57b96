//! Formats answers about streams, rounds and loads.

use mig_assemble::RoundFault;
use mig_cases::{Done, Pages, Trouble, put_memory};
use mig_load_types::{Fault, LoadFault, Loaded, Origin};
use mig_stream::{StreamFault, StreamRound, StreamState};

fn put_stream_fault(out: &mut String, fault: StreamFault) -> Done {
    write!(out, "fault {}", fault.number())?;
    match fault {
        StreamFault::Flags(flags) => write!(out, "({flags})")?,
        StreamFault::Fill(byte) => write!(out, "({byte})")?,
        _ => {}
    }
    Ok(())
}

pub fn put_round_fault(out: &mut String, fault: RoundFault) -> Done {
    if fault == RoundFault::NoMemory {
        return Err(Trouble::NoMemory);
    }
    write!(out, "fault {}", fault.number())?;
    match fault {
        RoundFault::Foreign(number)
        | RoundFault::Doubled(number)
        | RoundFault::Missing(number)
        | RoundFault::UnknownBlock(number) => write!(out, "({number})")?,
        RoundFault::Offset(number, i) => write!(out, "({number}, {i})")?,
        RoundFault::DoublePage(place) => write!(out, "({}.{})", place.block, place.page)?,
        RoundFault::NoMemory => {}
    }
    Ok(())
}

pub fn put_stream_state(out: &mut String, state: StreamState) -> Done {
    match state {
        StreamState::Reading => out.push_str("reading")?,
        StreamState::Closed => out.push_str("closed")?,
        StreamState::Bad(fault) => put_stream_fault(out, fault)?,
    }
    Ok(())
}

/// Writes the page records of a round, in the order of the stream.
pub fn put_records(out: &mut String, round: &StreamRound) -> Done {
    let alloc = *out.allocator();
    let mut pages = Pages::new(alloc, 1);
    for i in 0..round.len() {
        let place = round.place(i);
        let before = format!(in alloc; "{}.", place.block)?;
        pages.add(out, &before, place.page, round.content(i))?;
    }
    if round.len() == 0 {
        out.push_str(" -")?;
    }
    pages.end(out)
}

fn put_load_fault(out: &mut String, fault: LoadFault) -> Done {
    if fault.fault == Fault::NoMemory {
        return Err(Trouble::NoMemory);
    }
    match fault.fault {
        Fault::Stream(fault) => put_stream_fault(out, fault)?,
        Fault::Round(fault) => put_round_fault(out, fault)?,
        other => write!(out, "fault {}", other.number())?,
    }
    write!(out, " round {}", fault.round)?;
    match fault.source {
        Origin::Main => out.push_str(" in main")?,
        Origin::Channel(channel) => write!(out, " in channel {channel}")?,
        Origin::Round => out.push_str(" in round")?,
    }
    Ok(())
}

/// Writes the result of a load: the verdict, the number of rounds, and the memory.
pub fn put_loaded(out: &mut String, loaded: &Loaded) -> Done {
    match loaded.verdict {
        Ok(()) => out.push_str("ok")?,
        Err(fault) => put_load_fault(out, fault)?,
    }
    write!(out, "; rounds {};", loaded.rounds)?;
    match &loaded.memory {
        Some(memory) => put_memory(out, memory),
        None => Ok(out.push_str(" none")?),
    }
}
