//! Checks a scenario: sends its rounds on a single stream and on channels, loads what was sent, and
//! compares it with the guest.

ghost use Rattle.std.specs.Prelude.{ℕ, ◌≡◌, ◌⊎◌, ⊤, List, None, Some, Ok, Err, true, length, is_some, IfSome, IsSomeAnd, IfOk, IfErr, OnOk};
ghost use Rattle.mig_send.specs.declared.multi.Sent.{Sent};
ghost use Rattle.mig_load_types.specs.declared.fault.LoadFault.{LoadFault};
ghost use Rattle.mig_mem.specs.Image.{Image};
ghost use Rattle.mig_mem.specs.PageSize.{IsPageSize};
ghost use Rattle.mig_scenario.specs.Scenario.{refusal};
ghost use Rattle.mig_scenario.specs.Layout.{bytes_in, HasRoom};
ghost use Rattle.mig_command.specs.Answer.{Answers, answer_from, IsLoadOf, IsLoadOfSent, Compares, HasRoundTrip, HasGone, HasChannels};

use crate::answer::{Answer, ChannelsChecked, Checked, Comparison};
use crate::comparison::compared;
use crate::sending::total_len;
use mig_load_types::{Fault, LoadFault, Loaded, Origin};
use mig_mem::{MAX_TOTAL, Memory};
use mig_packet::OpenGate;
use mig_relay::load_multi;
use mig_scenario::{Layout, Played, ScenarioFault, Senders, Texts, judge, play};
use mig_send::Sent;
use mig_single_load::load_single;
use std::alloc::Allocator;
use std::sync::Wait;
use std::thread::Threads;
use uuid::Uuid;

// Executes a scenario. Returns the guest at the end with the streams of its rounds, and the result
// of loading the single stream.
fn round_trip<H: Threads + Sync, A: Allocator + Copy + Send + Sync>(
    rt: &H,
    alloc: A,
    text: &[u8],
    layout: Layout,
) -> Result<(Played<A>, Loaded<A>), ScenarioFault>
    requires { HasRoom layout }
    ensures ok { IfOk result (λ p. HasRoundTrip layout text.now p.0 p.1) }
    ensures several { IfOk result (λ p. HasGone layout text.now p.0.texts.several) }
    ensures channels { IfOk result (λ p. IfSome p.0.texts.several HasChannels) }
    ensures lawful { OnOk result (refusal (bytes_in layout.page_size) text.now ≡ None) }
    ensures err { IfErr result (λ e. (e ≡ ScenarioFault.NoMemory) ⊎ (refusal (bytes_in layout.page_size) text.now ≡ Some e)) }
{
    let page_size = layout.page_size.bytes();
    let scenario = judge(alloc, page_size, text)?;
    scenario.table.keeps_limits();
    let senders = Senders::both(alloc, &scenario.table, layout, Uuid::nil())?;
    let played = play(rt, alloc, &scenario.table, &scenario.lines, senders)?;
    let loaded = load_stream(alloc, page_size, &played.texts);
    Ok((played, loaded))
}

// Loads the single stream that was sent.
fn load_stream<A: Allocator + Copy>(alloc: A, page_size: u64, texts: &Texts<A>) -> Loaded<A>
    requires page_size { IsPageSize page_size }
    requires text { is_some texts.now.single ≡ true }
    ensures { IsSomeAnd texts.now.single (λ text. IsLoadOf page_size text.items result) }
{
    match &texts.single {
        Some(text) => load_single(alloc, page_size, text, MAX_TOTAL),
        None => unreachable!(),
    }
}

// Returns how many rounds were loaded, and how their memory compares with the guest's.
fn compare_loaded<H: Threads + Sync, A: Allocator + Copy + Send + Sync>(
    rt: &H,
    alloc: A,
    loaded: &Loaded<A>,
    image: &Memory<A>,
) -> Result<(u64, Comparison), Answer>
    ensures fault { (e : LoadFault) → loaded.now.verdict ≡ Err e → result ≡ Err (Answer.Unloaded e) }
    ensures same { (v : ⊤) → loaded.now.verdict ≡ Ok v → loaded.now.memory ≡ Some image.now
        → (result ≡ Ok (loaded.now.rounds, Comparison.Same)) ⊎ (result ≡ Err (Answer.Refused ScenarioFault.NoMemory)) }
    ensures compared { (memory : Image) → loaded.now.memory ≡ Some memory → IfOk result (λ both. Compares memory image.now both.1) }
{
    if let Err(fault) = loaded.verdict {
        return Err(Answer::Unloaded(fault));
    }
    let round = loaded.rounds;
    match &loaded.memory {
        Some(memory) if memory.table().same(image.table()) => {
            Ok((round, compared(rt, alloc, memory, image)?))
        }
        _ => Err(Answer::Unloaded(LoadFault {
            round,
            source: Origin::Main,
            fault: Fault::OtherTable,
        })),
    }
}

// Loads the main stream and the channels that were sent.
fn load_sent<H: Threads + Wait + Sync, A: Allocator + Copy + Send + Sync>(
    rt: &H,
    alloc: A,
    page_size: u64,
    sent: &Sent<A>,
) -> Loaded<A>
    requires page_size { IsPageSize page_size }
    requires channels { HasChannels sent.now }
    ensures { IsLoadOfSent page_size sent.now result }
{
    load_multi(
        rt,
        alloc,
        page_size,
        &Uuid::nil(),
        &sent.main,
        &sent.channels,
        MAX_TOTAL,
        &OpenGate,
    )
}

// Returns the length of the single stream.
fn single_len<A: Allocator>(texts: &Texts<A>) -> usize
    ensures { IfSome texts.now.single (λ text. result ≡ length text.items) }
{
    match &texts.single {
        Some(text) => text.len(),
        None => 0,
    }
}

// Returns the answer on a scenario whose single stream was loaded.
fn check_texts<H: Threads + Wait + Sync, A: Allocator + Copy + Send + Sync>(
    rt: &H,
    alloc: A,
    layout: Layout,
    played: &Played<A>,
    loaded: &Loaded<A>,
) -> Result<Checked, Answer>
    requires { IfSome played.now.texts.several HasChannels }
    ensures { (text : List ℕ) → HasRoundTrip layout text played.now loaded.now → refusal (bytes_in layout.page_size) text ≡ None
        → HasGone layout text played.now.texts.several → Answers layout text (answer_from result) }
{
    let single = single_len(&played.texts);
    let (sections, of_single) = match compare_loaded(rt, alloc, loaded, &played.image) {
        Ok(pair) => pair,
        Err(answer) => return Err(answer),
    };
    let Some(sent) = &played.texts.several else {
        return Ok(Checked {
            single,
            sections,
            several: None,
            comparison: of_single,
        });
    };
    let loaded = load_sent(rt, alloc, layout.page_size.bytes(), sent);
    let (rounds, of_several) = match compare_loaded(rt, alloc, &loaded, &played.image) {
        Ok(pair) => pair,
        Err(answer) => return Err(answer),
    };
    Ok(Checked {
        single,
        sections,
        several: Some(ChannelsChecked {
            main: sent.main.len(),
            channels: total_len(&sent.channels),
            rounds,
        }),
        comparison: match of_single {
            Comparison::Same => of_several,
            Comparison::Differs(_, _) => of_single,
        },
    })
}

/// Returns the answer on a scenario.
pub(crate) fn check<H: Threads + Wait + Sync, A: Allocator + Copy + Send + Sync>(
    rt: &H,
    alloc: A,
    text: &[u8],
    layout: Layout,
) -> Answer
    requires { HasRoom layout }
    ensures { Answers layout text.now result }
{
    let (played, loaded) = match round_trip(rt, alloc, text, layout) {
        Ok(pair) => pair,
        Err(fault) => return Answer::Refused(fault),
    };
    match check_texts(rt, alloc, layout, &played, &loaded) {
        Ok(checked) => Answer::Checked(checked),
        Err(answer) => answer,
    }
}
