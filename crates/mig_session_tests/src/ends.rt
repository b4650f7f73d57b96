//! What a session says before its sources end: which source broke, and that all rounds are in.

use crate::feeding::{ends, is_fed, new_session};
use crate::texts::nines;
use mig_answer::Verdict;
use mig_load_types::Fault;
use mig_packet::ChannelFault;
use mig_send::Sent;
use mig_session::{Session, Source};
use std::alloc::AllocGlobal;
use std::process::Abort;

const CHANNEL: Source = Source::Channel(0);

// Feeds these bytes of the only channel.
fn has_channel(session: &mut Session, sent: &Sent, from: usize, to: usize) -> bool {
    let channel = sent.channels.first().map_or(&[][..], |text| &**text);
    is_fed(session, CHANNEL, channel.get(from..to).unwrap_or_default())
}

// Returns whether the main stream has no fault, and the channel has this one.
fn has_fault(session: &Session, fault: Option<Fault>) -> bool {
    session.has(CHANNEL)
        && session.fault_of(Source::Main) == None
        && session.fault_of(CHANNEL) == fault
}

// Ends the channel before its last byte, and feeds a part of the main stream. Returns whether the
// channel's fault is reported, though the load runs.
fn is_reported_while_main_goes_on(rt: &(impl AllocGlobal + Abort)) -> bool {
    let sent = nines(rt);
    let mut session = new_session(rt, rt.alloc(), 4096, 1);
    has_channel(&mut session, &sent, 0, 6847)
        && has_fault(&session, None)
        && ends(&mut session, CHANNEL)
        && is_fed(
            &mut session,
            Source::Main,
            sent.main.get(..50).unwrap_or_default(),
        )
        && session.verdict() == Verdict::Running
        && has_fault(&session, Some(Fault::Channel(ChannelFault::Truncated)))
        && !session.has_all_rounds()
}

#[test]
fn channel_that_is_cut(rt: HostRuntime) {
    assert!(rt; is_reported_while_main_goes_on(&rt));
}

// Feeds all but the end of the channel. Returns whether all rounds are in with the last byte, and
// the load is done with the channel's end.
fn is_in_before_the_end(rt: &(impl AllocGlobal + Abort)) -> bool {
    let sent = nines(rt);
    let mut session = new_session(rt, rt.alloc(), 4096, 1);
    is_fed(&mut session, Source::Main, &sent.main)
        && has_channel(&mut session, &sent, 0, 6847)
        && !session.has_all_rounds()
        && has_channel(&mut session, &sent, 6847, 6848)
        && session.has_all_rounds()
        && session.verdict() == Verdict::Running
        && ends(&mut session, CHANNEL)
        && session.has_all_rounds()
        && session.verdict() == Verdict::Done
}

#[test]
fn all_rounds_are_in_before_the_channel_ends(rt: HostRuntime) {
    assert!(rt; is_in_before_the_end(&rt));
}
