//! Laws of the definitions alone: the readings of the streams of a sending, whatever code writes
//! and reads them.
//!
//! Each law is the clause of a function that does nothing itself. So it is proved with the crate,
//! and a caller who calls the function may use it.

ghost use Rattle.mig_send.specs.ReadBack.{SendingsAreReadBack, MachineSendingsAreReadBack, SayTheirPages};

/// The streams of a sender on several channels are read back. The main stream is read as its table
/// and as many rounds without a record as were sent. Each channel is read, at once or piece by
/// piece, as its hello and the packets that it carries of each round. Only the last packet of a
/// round has SYNC. So each reader finds the channel closed, with as many rounds.
pub fn sendings_are_read_back()
    ensures { SendingsAreReadBack }
{
    mig_stream::written_is_text();
    mig_stream::spelled_is_read();
}

/// The streams of a sender on several channels in a machine's frame (`MultiSender::finish_open`)
/// are read back, with a machine's name of at most 1,024 bytes or without one: the main stream in a
/// machine's frame, whatever follows RAM's END, and the channels as in `sendings_are_read_back`.
pub fn machine_sendings_are_read_back()
    ensures { MachineSendingsAreReadBack }
{
    mig_stream::machine_written_is_text();
    sendings_are_read_back();
}

/// The fields of the packets. That of a batch has its number, its block's id and the batch's pages,
/// those that aren't zeros with their contents. A SYNC packet has its number alone.
pub fn packets_say_their_pages()
    ensures { SayTheirPages }
{}
