//! What C sees of a load of several channels into its blocks, and why it takes no piece.

ghost use Rattle.std.specs.Prelude.{◌≡◌};
ghost use Rattle.mig_mem.specs.Lent.{mut_lent_bytes};
ghost use Rattle.mig_c_loads.specs.Found.{seen_of_verdict};
ghost use Rattle.mig_c_loads.specs.InPlaceSessions.{RefusesPiece, TellsClosedAt, TellsValidUpTo, TellsFault};

use crate::fault::{FoundFault, found, none, of_source, running};
use crate::lent::fit;
use mig_answer::Verdict;
use mig_c_calls::status::{BAD_LENGTH, BAD_SOURCE, DONE, IS_OVER, RUNNING, TOO_LONG};
use mig_in_place::InPlaceSession;
use mig_sources::Source;
use std::alloc::Global;

/// Returns why a piece of a source can't be taken into these blocks, or DONE.
pub(crate) fn refusal(
    session: &InPlaceSession<Global>,
    blocks: &[&mut [u8]],
    source: Source,
    len: usize,
) -> u32
    ensures { RefusesPiece source len (mut_lent_bytes blocks.now) result session.now }
{
    if !session.has(source) {
        return BAD_SOURCE;
    }
    if session.ended(source) {
        return IS_OVER;
    }
    if !session.has_room(source, len) {
        return TOO_LONG;
    }
    if !fit(session.table(), blocks) {
        return BAD_LENGTH;
    }
    DONE
}

/// Reports how many of the bytes taken the main stream has, once it is closed.
pub(crate) fn closed_at(session: &InPlaceSession<Global>, at: &mut u64) -> u32
    ensures { TellsClosedAt result at.old at.new session.now }
{
    match session.closed_at() {
        Some(count) => {
            *at = count;
            DONE
        }
        None => RUNNING,
    }
}

/// Returns whether it is known how many bytes of a source are complete items without a fault, and
/// reports how many.
pub(crate) fn valid_up_to(session: &InPlaceSession<Global>, source: Source, at: &mut u64) -> bool
    ensures { TellsValidUpTo source result at.old at.new session.now }
{
    if !session.has(source) {
        return false;
    }
    match session.valid_up_to(source) {
        Some(count) => {
            *at = count;
            true
        }
        None => false,
    }
}

/// Reports the fault of a source's own bytes, or that they have none.
pub(crate) fn report_fault(
    session: &InPlaceSession<Global>,
    source: Source,
    found: &mut FoundFault,
) -> u32
    ensures { TellsFault source result found.old found.new session.now }
{
    if !session.has(source) {
        return BAD_SOURCE;
    }
    let fault = of_source(session.rounds(), source, session.fault_of(source));
    *found = fault;
    fault.number
}

/// Returns the verdict on the bytes taken, as C sees it.
pub(crate) fn seen_verdict(session: &InPlaceSession<Global>) -> FoundFault
    ensures { result ≡ seen_of_verdict session.now.rounds session.now.verdict }
{
    match session.verdict() {
        Verdict::Done => none(),
        Verdict::Running => running(session.rounds()),
        Verdict::Failed(fault) => found(fault),
    }
}
