//! Gates, at which a test may hold the threads that send or load, to see how they run. The workers
//! of `mig_send` and `mig_relay` pass them.

/// The step that a thread has just done, with the number of the packet or item.
#[derive(Clone, Copy, Debug, PartialEq, Eq)]
pub enum Step {
    /// A sending worker drew this packet number. A worker passes this for its last draw, too.
    Drawn(u64),
    /// A sending worker packed the packet with this number.
    Packed(u64),
    /// A loading worker read its channel's item with this number, from 0.
    Found(u64),
    /// A loading worker passed that item on.
    Pushed(u64),
}

/// The gate that a worker passes after each step. A test's gate may hold the worker there. `pass`
/// must return eventually, or a caller that waits for the worker waits for ever.
pub trait Gate {
    /// Is called after the worker of `channel`, from 0, has done `step`.
    fn pass(&self, channel: usize, step: Step);
}

/// The gate that holds no worker.
#[derive(Clone, Copy, Debug, Default)]
pub struct OpenGate;

impl Gate for OpenGate {
    fn pass(&self, _: usize, _: Step) {}
}
