//! The frame of a stream, by its number for C.

ghost use Rattle.std.specs.Prelude.{◌≡◌};
ghost use Rattle.mig_c_loads.specs.Frames.{frame_of};

use mig_stream::Frame;

/// RAM's sections alone.
pub(crate) const FRAME_RAM: u32 = 0;

/// A machine's stream.
pub(crate) const FRAME_MACHINE: u32 = 1;

/// Returns the frame with this number, if there is one.
pub fn frame_of(number: u32) -> Option<Frame>
    ensures { result ≡ frame_of number }
{
    match number {
        FRAME_RAM => Some(Frame::Ram),
        FRAME_MACHINE => Some(Frame::Machine),
        _ => None,
    }
}
