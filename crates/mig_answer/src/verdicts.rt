//! The verdict of a load's sources at a round, before the round itself is judged: for relays and
//! sessions.

ghost use Rattle.std.specs.Prelude.{◌≡◌, [], ◌∷◌, map, is_some, None, if◌then◌else◌};
ghost use Rattle.std.specs.List.{list_any, list_all, position};
ghost use Rattle.std.specs.Option.{option_map};
ghost use Rattle.mig_mem.specs.First.{first_some};
ghost use Rattle.mig_load_types.specs.declared.fault.Fault.TheVariants as fault;
ghost use Rattle.mig_load_types.specs.declared.fault.Origin.TheVariants as origin;
ghost use Rattle.mig_answer.specs.Status.{is_whole, is_clean, is_pending, fault_of};
ghost use Rattle.mig_answer.specs.MultiLoad.{main_standing, failed, failed_at_first, failed_with_own, sources_verdicts, repeated_hello};
ghost use Rattle.mig_answer.specs.Told.{standings};

use crate::Verdict;
use crate::status::Status;
use mig_load_types::{Fault, LoadFault, Origin};

/// Returns the verdict at a round, by the statuses of the sources and the least channel whose hello
/// is repeated. If all sources have the round, and no hello is repeated, returns None.
pub fn sources_verdict(
    round: u64,
    main: Status,
    channels: &[Status],
    repeated: Option<usize>,
) -> Option<Verdict>
    ensures { result ≡ first_some (sources_verdicts round (main_standing main) (standings channels.now) repeated) }
{
    if any_pending(main, channels) {
        return Some(Verdict::Running);
    }
    if let Some(verdict) = fault_verdict(round, main, channels) {
        return Some(verdict);
    }
    if let Some(verdict) = failed_at(round, repeated, Fault::HelloTwice) {
        return Some(verdict);
    }
    if all_clean(main, channels) {
        return Some(Verdict::Done);
    }
    unequal_verdict(round, main, channels)
}

// Returns whether more bytes of a source are needed.
fn any_pending(main: Status, channels: &[Status]) -> bool
    ensures { result ≡ list_any (λ s. is_pending s.status) (main_standing main ∷ standings channels.now) }
{
    is_pending(main) || some_pending(channels)
}

// Returns whether all sources are closed.
fn all_clean(main: Status, channels: &[Status]) -> bool
    ensures { result ≡ list_all (λ s. is_clean s.status) (main_standing main ∷ standings channels.now) }
{
    is_clean(main) && each_clean(channels)
}

// Returns the failure with the first source's fault, if there is one.
fn fault_verdict(round: u64, main: Status, channels: &[Status]) -> Option<Verdict>
    ensures { result ≡ first_some (map (failed_with_own round) (main_standing main ∷ standings channels.now)) }
{
    match main {
        Status::Bad(fault) => Some(failed(round, Origin::Main, fault)),
        Status::Whole | Status::Clean | Status::Pending => channel_fault_verdict(round, channels),
    }
}

// Returns the failure with the first channel's fault, if there is one.
fn channel_fault_verdict(round: u64, channels: &[Status]) -> Option<Verdict>
    ensures { result ≡ first_some (map (failed_with_own round) (standings channels.now)) }
{
    let Some(j) = first_bad(channels) else {
        return None;
    };
    match channels[j] {
        Status::Bad(fault) => Some(failed(round, Origin::Channel(j), fault)),
        Status::Whole | Status::Clean | Status::Pending => None,
    }
}

// Returns the failure at the first channel that has the round while the main stream is closed, or
// the other way round.
fn unequal_verdict(round: u64, main: Status, channels: &[Status]) -> Option<Verdict>
    ensures { result ≡ first_some ((if is_clean main then failed_at_first round is_whole fault.Extra (standings channels.now) else None)
        ∷ (if is_whole main then failed_at_first round is_clean fault.Short (standings channels.now) else None) ∷ []) }
{
    match main {
        Status::Clean => failed_at(round, first_whole(channels), Fault::Extra),
        Status::Whole => failed_at(round, first_clean(channels), Fault::Short),
        Status::Bad(_) | Status::Pending => None,
    }
}

// Returns the failure with `fault` at a channel, if there is one.
fn failed_at(round: u64, channel: Option<usize>, fault: Fault) -> Option<Verdict>
    ensures { result ≡ option_map (λ j. failed round (origin.Channel j) fault) channel }
{
    match channel {
        Some(j) => Some(failed(round, Origin::Channel(j), fault)),
        None => None,
    }
}

fn some_pending(channels: &[Status]) -> bool
    ensures { result ≡ list_any is_pending channels.now }
{
    channels.iter().any(|status| is_pending(*status))
}

fn each_clean(channels: &[Status]) -> bool
    ensures { result ≡ list_all is_clean channels.now }
{
    channels.iter().all(|status| is_clean(*status))
}

fn first_bad(channels: &[Status]) -> Option<usize>
    ensures { result ≡ position (λ status. is_some (fault_of status)) channels.now }
{
    channels.iter().position(|status| is_bad(*status))
}

fn first_whole(channels: &[Status]) -> Option<usize>
    ensures { result ≡ position is_whole channels.now }
{
    channels.iter().position(|status| is_whole(*status))
}

fn first_clean(channels: &[Status]) -> Option<usize>
    ensures { result ≡ position is_clean channels.now }
{
    channels.iter().position(|status| is_clean(*status))
}

fn failed(round: u64, source: Origin, fault: Fault) -> Verdict
    ensures { result ≡ failed round source fault }
{
    Verdict::Failed(LoadFault {
        round,
        source,
        fault,
    })
}

fn is_whole(status: Status) -> bool
    ensures { result ≡ is_whole status }
{
    matches!(status, Status::Whole)
}

fn is_clean(status: Status) -> bool
    ensures { result ≡ is_clean status }
{
    matches!(status, Status::Clean)
}

fn is_pending(status: Status) -> bool
    ensures { result ≡ is_pending status }
{
    matches!(status, Status::Pending)
}

fn is_bad(status: Status) -> bool
    ensures { result ≡ is_some (fault_of status) }
{
    matches!(status, Status::Bad(_))
}

// How many ids there are.
const ID_COUNT: usize = 256;

/// Returns the least channel whose hello names the id of an earlier one.
pub fn repeated_id(hellos: &[Option<u8>]) -> Option<usize>
    ensures { result ≡ repeated_hello hellos.now }
{
    let mut seen = [false; ID_COUNT];
    for j in 0..hellos.len() {
        if let Some(id) = hellos[j] {
            if seen[id as usize] {
                return Some(j);
            }
            seen[id as usize] = true;
        }
    }
    None
}
