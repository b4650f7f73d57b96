//! Loads a migration's files into the file of a memory.

ghost use Rattle.std.specs.Prelude.{◌≡◌, ◌≤◌, ◌^◌, replicate, Some, IfOk, IfErr, vec_len};
ghost use Rattle.mig_answer.specs.MultiLoad.{as_verdict};
ghost use Rattle.mig_session.specs.Session.{answer_in};
ghost use Rattle.mig_sources.specs.Sources.{HasSource, count_of, no_count};
ghost use Rattle.mig_command.specs.Answer.{unloaded_of};
ghost use Rattle.mig_command.specs.Feeding.{OthersStay};

use crate::answer::Answer;
use crate::fault::ToolFault;
use crate::files::{channel_name, open, read_file};
use crate::request::LoadRequest;
use mig_answer::Verdict;
use mig_image::BUFFER_ROOM;
use mig_load_types::{Fault, LoadFault, Loaded, Origin};
use mig_mem::{Memory, NoMemory};
use mig_packet::OpenGate;
use mig_relay::load_multi;
use mig_session::{Counted, PumpFault, Session, Source, pump};
use mig_single_load::load_single;
use std::alloc::Allocator;
use std::fs::Files;
use std::sync::Wait;
use std::thread::Threads;

/// The most reads of each source, if it is loaded as it is read. The read that finds its end
/// counts.
const MOST_READS: u64 = 65_536;

// Writes a memory into its file. If the buffer can't be allocated, the file isn't opened.
fn write_image<H: Files, A: Allocator, B: Allocator>(
    rt: &H,
    alloc: A,
    name: &str,
    memory: &Memory<B>,
) -> Result<(), Answer> {
    let Ok(mut buffer) = Vec::with_capacity(alloc, BUFFER_ROOM) else {
        return Err(Answer::from(NoMemory));
    };
    match mig_image::write_image(rt, name, &mut buffer, memory) {
        Ok(()) => Ok(()),
        Err(_) => Err(Answer::Failed(ToolFault::Unwritten)),
    }
}

// ---- complete streams

// Returns the memory and the rounds of a load, or the answer if it has a fault.
fn settled<A: Allocator>(loaded: Loaded<A>) -> Result<(Memory<A>, u64), Answer>
    ensures ok { IfOk result (λ both. (as_verdict loaded.verdict ≡ Verdict.Done) × (loaded.memory ≡ Some both.0) × (loaded.rounds ≡ both.1)) }
    ensures err { IfErr result (λ answer. answer ≡ unloaded_of (as_verdict loaded.verdict) loaded.rounds) }
{
    let Loaded {
        memory,
        rounds,
        verdict,
        ..
    } = loaded;
    if let Err(fault) = verdict {
        return Err(Answer::Unloaded(fault));
    }
    match memory {
        Some(memory) => Ok((memory, rounds)),
        None => Err(without_memory(rounds)),
    }
}

// Returns the answer if the guest's memory couldn't be allocated.
fn without_memory(rounds: u64) -> Answer
    ensures { result ≡ unloaded_of Verdict.Done rounds }
{
    Answer::Unloaded(LoadFault {
        round: rounds,
        source: Origin::Round,
        fault: Fault::NoMemory,
    })
}

// Loads a single stream.
fn load_stream<H: Files, A: Allocator + Copy>(
    rt: &H,
    alloc: A,
    request: &LoadRequest,
) -> Result<Answer, Answer>
    requires { request.now.limit ≤ 2 ^ 40 }
{
    let text = read_file(rt, alloc, request.main)?;
    let loaded = load_single(alloc, request.page_size.bytes(), &text, request.limit);
    let (memory, sections) = settled(loaded)?;
    write_image(rt, alloc, request.image, &memory)?;
    Ok(Answer::LoadedSections(sections))
}

// Reads the channels.
fn read_channels<H: Files, A: Allocator + Copy>(
    rt: &H,
    alloc: A,
    request: &LoadRequest,
) -> Result<Vec<Vec<u8, A>, A>, Answer>
    ensures count { IfOk result (λ texts. vec_len texts ≡ request.now.channels) }
    ensures few { IfOk result (λ texts. vec_len texts ≤ 255) }
{
    let mut texts = Vec::new(alloc);
    for channel in 0..usize::from(request.channels) {
        let name = channel_name(alloc, request.main, channel)?;
        let text = read_file(rt, alloc, &name)?;
        if texts.push(text).is_err() {
            return Err(Answer::from(NoMemory));
        }
    }
    Ok(texts)
}

// Loads a main stream with several channels.
fn load_channels<H: Files + Threads + Wait + Sync, A: Allocator + Copy + Send + Sync>(
    rt: &H,
    alloc: A,
    request: &LoadRequest,
) -> Result<Answer, Answer>
    requires channels { 1 ≤ request.now.channels }
    requires limit { request.now.limit ≤ 2 ^ 40 }
{
    let main = read_file(rt, alloc, request.main)?;
    let channels = read_channels(rt, alloc, request)?;
    let loaded = load_multi(
        rt,
        alloc,
        request.page_size.bytes(),
        &request.uuid,
        &main,
        &channels,
        request.limit,
        &OpenGate,
    );
    let (memory, rounds) = settled(loaded)?;
    write_image(rt, alloc, request.image, &memory)?;
    Ok(Answer::LoadedRounds(rounds))
}

// ---- streams that are loaded as they are read

// Returns the answer if reading a source failed, or feeding it.
fn unpumped<A: Allocator>(session: &Session<A>, fault: PumpFault) -> Answer {
    match (fault, session.verdict()) {
        (PumpFault::Read, _) => Answer::Failed(ToolFault::Unread),
        (PumpFault::TooManyTurns, _) => Answer::Failed(ToolFault::TooManyReads),
        (PumpFault::NoMemory, Verdict::Failed(fault)) if fault.fault == Fault::NoMemory => {
            Answer::Unloaded(fault)
        }
        (PumpFault::NoMemory, _) => Answer::from(NoMemory),
    }
}

// Feeds a file to its end.
fn feed_file<H: Files, A: Allocator + Copy>(
    rt: &H,
    alloc: A,
    session: &mut Session<A>,
    source: Source,
    name: &str,
) -> Result<(), Answer>
    requires source { HasSource session.old.counts source }
    requires fresh { count_of session.old.counts source ≡ no_count }
    ensures others { OthersStay source session.old.counts session.new.counts }
{
    let mut reader = Counted::new(open(rt, name)?);
    match pump(alloc, &mut reader, session, source, MOST_READS) {
        Ok(_) => Ok(()),
        Err(fault) => Err(unpumped(session, fault)),
    }
}

// Feeds the main stream, then each channel.
fn feed_files<H: Files, A: Allocator + Copy>(
    rt: &H,
    alloc: A,
    session: &mut Session<A>,
    request: &LoadRequest,
) -> Result<(), Answer>
    requires { session.old.counts ≡ record { main = no_count; channels = replicate request.now.channels no_count } }
{
    feed_file(rt, alloc, session, Source::Main, request.main)?;
    for channel in 0..usize::from(request.channels) {
        let name = channel_name(alloc, request.main, channel)?;
        feed_file(rt, alloc, session, Source::Channel(channel), &name)?;
    }
    Ok(())
}

// Returns the memory of a session whose sources have all ended, or the answer if it has a fault.
fn settled_session<A: Allocator>(session: &Session<A>) -> Result<&Memory<A>, Answer>
    ensures ok { IfOk result (λ memory. (session.now.verdict ≡ Verdict.Done) × ((answer_in session.now).memory ≡ Some memory.now)) }
    ensures err { IfErr result (λ answer. answer ≡ unloaded_of session.now.verdict (answer_in session.now).rounds) }
{
    match session.verdict() {
        Verdict::Failed(fault) => return Err(Answer::Unloaded(fault)),
        // (when all sources have ended the load isn't pending)
        Verdict::Running => return Err(Answer::Failed(ToolFault::Unread)),
        Verdict::Done => {}
    }
    match session.memory() {
        Some(memory) => Ok(memory),
        None => Err(without_memory(session.rounds())),
    }
}

// Writes the memory of a session whose sources have all ended into its file.
fn write_session<H: Files, A: Allocator + Copy>(
    rt: &H,
    alloc: A,
    session: &Session<A>,
    name: &str,
) -> Result<Answer, Answer> {
    let memory = settled_session(session)?;
    write_image(rt, alloc, name, memory)?;
    Ok(Answer::LoadedRounds(session.rounds()))
}

// Feeds a session its files, and writes the memory into its file.
fn load_session<H: Files, A: Allocator + Copy>(
    rt: &H,
    alloc: A,
    session: &mut Session<A>,
    request: &LoadRequest,
) -> Result<Answer, Answer>
    requires { session.old.counts ≡ record { main = no_count; channels = replicate request.now.channels no_count } }
{
    feed_files(rt, alloc, session, request)?;
    write_session(rt, alloc, session, request.image)
}

// Loads a main stream with several channels, each as it is read.
fn load_fed<H: Files, A: Allocator + Copy>(
    rt: &H,
    alloc: A,
    request: &LoadRequest,
) -> Result<Answer, Answer>
    requires channels { 1 ≤ request.now.channels }
    requires limit { request.now.limit ≤ 2 ^ 40 }
{
    let mut session = Session::new(
        alloc,
        request.page_size.bytes(),
        &request.uuid,
        usize::from(request.channels),
        request.limit,
    )?;
    load_session(rt, alloc, &mut session, request)
}

/// Executes a load request, and writes the memory into its file unless there is a fault. Returns
/// the answer. An `Err` is an answer, too: that of the first fault.
pub(crate) fn load<H: Files + Threads + Wait + Sync, A: Allocator + Copy + Send + Sync>(
    rt: &H,
    alloc: A,
    request: &LoadRequest,
) -> Result<Answer, Answer>
    requires { request.now.limit ≤ 2 ^ 40 }
{
    if request.channels == 0 {
        return load_stream(rt, alloc, request);
    }
    if request.is_fed {
        return load_fed(rt, alloc, request);
    }
    load_channels(rt, alloc, request)
}
