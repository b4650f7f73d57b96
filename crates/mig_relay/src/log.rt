//! The rule of a channel's queue, and the kinds of steps under it, for `queue`.
//!
//! Nothing here runs. `crossbeam_channel` requires of each step that it keeps the rule, for any
//! contents of the queue and any knowledge of the passes. In return the step has what its kind
//! promises.
//!
//! The steps are: the queue is made with one pass; this pass is split in two, one to push and one
//! to pop; a push; a pop.

use crate::message::Message;
use crossbeam_channel::protocol::{Lesson, Outcome, Protocol, Split};
use std::collections::LinkedList;
use std::marker::{Brand, PhantomData};

/// A channel that has ended: its bytes, and the settings by which they are read. No value of this
/// type is made: it is known to proofs alone.
pub struct ChannelText {
    pub page_size: u64,
    pub uuid: LinkedList<u8>,
    pub channels: usize,
    pub waiting: Option<u64>,
    pub text: LinkedList<u8>,
}

/// A pass's record: whether it pushes, whether it pops, the channel, and the messages that it
/// pushed or popped. No value of this type is made.
pub struct Log {
    pub feeds: bool,
    pub collects: bool,
    pub source: ChannelText,
    pub done: LinkedList<Message>,
}

/// The invariant of a queue and its passes between any two steps. The messages popped, and then
/// those in the queue, are those pushed, which are the first of the channel. One pass pushes, and
/// one pops.
pub struct InOrder;

impl Protocol<Message, Log> for InOrder {
    ghost use Rattle.mig_relay.specs.Queue.{fresh, IsInOrder};

    ghost holds = { IsInOrder };

    ghost first = { fresh };
}

/// Names the channel whose items a queue carries.
pub trait Carries {
    ghost use Rattle.mig_relay.specs.declared.log.ChannelText.{ChannelText};

    ghost source: { ChannelText };
}

impl Carries for Brand {
    ghost use Rattle.mig_relay.specs.Queue.{no_channel_text};

    ghost source = { no_channel_text };
}

/// The step that splits the pass that pops off a queue's first pass, which pushes from then on.
/// Each of the two knows the channel.
pub struct Cut<Q>(PhantomData<Q>);

impl<Q: Carries> Split<Log> for Cut<Q> {
    ghost use Rattle.std.specs.Prelude.{[]};
    ghost use Rattle.mig_relay.specs.Queue.{feeding, collecting};

    ghost left = { λ _. feeding Q.source [] };

    ghost right = { λ _. collecting Q.source [] };
}

/// The step of a push: the pass has pushed one message more.
pub struct Pushed;

impl Outcome<Message, Log> for Pushed {
    ghost use Rattle.mig_relay.specs.Queue.{TellsPush};

    ghost then = { TellsPush };
}

impl Lesson<Message, Log> for Pushed {
    ghost use Rattle.std.specs.Prelude.{⊤};

    ghost fact = { λ v items. ⊤ };
}

/// The step of a pop: the pass has popped one message more, and all that it popped are the first
/// messages of the channel.
pub struct Popped;

impl Outcome<Message, Log> for Popped {
    ghost use Rattle.mig_relay.specs.Queue.{TellsPop};

    ghost then = { TellsPop };
}

impl Lesson<Message, Log> for Popped {
    ghost use Rattle.std.specs.Prelude.{⊤};

    ghost fact = { λ v items. ⊤ };
}
