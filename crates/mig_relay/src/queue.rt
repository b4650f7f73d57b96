//! A channel's queue: one pass that pushes, and one that pops. `Relay::start` makes one for each
//! channel, for a feeder and the collector.

ghost use Rattle.std.specs.Prelude.{◌≡◌, ◌<◌, true, [], ◌∷◌, ◌++◌, IfOk};
ghost use Rattle.crossbeam_channel.specs.Claims.{view, IsSeatAt};
ghost use Rattle.crossbeam_channel.specs.Ends.{sends_on, receives_on};
ghost use Rattle.mig_packet.specs.PageSize.{IsPageSize};
ghost use Rattle.mig_relay.specs.Cursor.{text_of};
ghost use Rattle.mig_relay.specs.Messages.{BeginsMessages};
ghost use Rattle.mig_relay.specs.Queue.{fresh, feeding, collecting};

use crate::cursor::Cursor;
use crate::log::{Carries, Cut, InOrder, Log, Popped, Pushed};
use crate::message::Message;
use crossbeam_channel::{Pass, RuledReceiver, RuledSender, bounded_with};
use mig_mem::NoMemory;
use std::alloc::{Allocator, Global};
use std::marker::Brand;
use std::sync::Wait;

pub(crate) type Sender<A> = RuledSender<Message, Log, InOrder, A>;

pub(crate) type Receiver<A> = RuledReceiver<Message, Log, InOrder, A>;

pub(crate) type LogPass = Pass<Message, Log>;

// Creates the pass that pops. It and the first pass then know the channel.
fn cut<Q: Carries, A: Allocator>(
    sender: &Sender<A>,
    pass: &mut LogPass,
    cursor: &Cursor,
    text: &[u8],
) -> LogPass
    requires page_size { IsPageSize cursor.now.page_size }
    requires seat { IsSeatAt (sends_on sender.now) pass.old }
    requires first { view pass.old ≡ fresh }
    requires source { Q.source ≡ text_of cursor.now text.now }
    ensures feeder { IsSeatAt (sends_on sender.now) pass.new × (view pass.new ≡ feeding (text_of cursor.now text.now) []) }
    ensures collector { IsSeatAt (sends_on sender.now) result × (view result ≡ collecting (text_of cursor.now text.now) []) }
{
    let _cursor = cursor;
    let _bytes = text;
    sender.another::<Cut<Q>>(pass)
}

/// Makes a queue for the items of the channel `text`, which `cursor` finds. Returns its two ends,
/// each with its pass.
pub(crate) fn queue_for<A: Allocator + Copy>(
    alloc: A,
    cursor: &Cursor,
    text: &[u8],
    capacity: usize,
) -> Result<(Sender<A>, LogPass, Receiver<A>, LogPass), NoMemory>
    requires page_size { IsPageSize cursor.now.page_size }
    requires capacity { 0 < capacity }
    ensures same { IfOk result (λ r. r.1.table_id ≡ r.3.table_id) }
    ensures feeder { IfOk result (λ r. IsSeatAt (sends_on r.0) r.1 × (view r.1 ≡ feeding (text_of cursor.now text.now) [])) }
    ensures collector { IfOk result (λ r. IsSeatAt (receives_on r.2) r.3 × (view r.3 ≡ collecting (text_of cursor.now text.now) [])) }
{
    let (sender, receiver, mut pass) = bounded_with::<Message, Log, InOrder, A>(alloc, capacity)?;
    let other = cut::<Brand, A>(&sender, &mut pass, cursor, text);
    Ok((sender, pass, receiver, other))
}

/// Pushes the message. If the pass that pops was dropped, it sleeps for ever.
pub(crate) fn push<A: Allocator, R: Wait>(
    rt: &R,
    sender: &Sender<A>,
    pass: &mut LogPass,
    message: Message,
)
    requires seat { IsSeatAt (sends_on sender.now) pass.old }
    requires role { (view pass.old).feeds ≡ true }
    requires next { BeginsMessages (view pass.old).source ((view pass.old).done ++ message ∷ []) }
    ensures seat { IsSeatAt (sends_on sender.now) pass.new × (pass.new.table_id ≡ pass.old.table_id) }
    ensures pushed { view pass.new ≡ feeding (view pass.old).source ((view pass.old).done ++ message ∷ []) }
{
    match sender.send_as::<Pushed, R>(rt, pass, message) {
        Ok(()) => {}
        Err(_) => sleep_for_ever(rt),
    }
}

/// Pops a message. If the pass that pushes was dropped and the queue is empty, it sleeps for ever.
pub(crate) fn pop<A: Allocator, R: Wait>(
    rt: &R,
    receiver: &Receiver<A>,
    pass: &mut LogPass,
) -> Message
    requires seat { IsSeatAt (receives_on receiver.now) pass.old }
    requires role { (view pass.old).collects ≡ true }
    ensures seat { IsSeatAt (receives_on receiver.now) pass.new × (pass.new.table_id ≡ pass.old.table_id) }
    ensures popped { view pass.new ≡ collecting (view pass.old).source ((view pass.old).done ++ result ∷ []) }
    ensures next { BeginsMessages (view pass.old).source ((view pass.old).done ++ result ∷ []) }
{
    match receiver.recv_as::<Popped, R>(rt, pass) {
        Ok(message) => message,
        Err(_) => sleep_for_ever(rt),
    }
}

fn sleep_for_ever<R: Wait>(rt: &R) -> ! {
    for _ in rt.forever() {
        let _ = crossbeam_channel::never::<(), Global>().recv(rt);
    }
    unreachable!()
}
