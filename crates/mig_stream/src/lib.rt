//! The migration stream: the RAM section of QEMU's stream version 3, alone or as the main stream of
//! multifd. `Frame::Ram` is that section alone, as `StreamWriter` writes it. `Frame::Machine` is a
//! complete machine's stream as QEMU writes it, read up to the footer of RAM's END. A background
//! snapshot has no END, and is read up to its first device's section.
//!
//! The definitions are in `specs/`, apart from the code of both directions:
//!
//! - `Text`, `Machine`: which bytes are a stream.
//! - `Items`, `Reading`: how any bytes are read, item by item, with every fault by name.
//! - `Written`, `MachineWritten`: the one stream that a writer writes.
//!
//! The laws between them are in `laws`. `StreamWriter` writes, and `StreamReader` reads.
//! `RecordReader` reads a single stream, at once or piece by piece with a `Pause` between, and
//! gives its page records before their section is complete. Other crates have the channels beside a
//! main stream, and what is done with the pages.
#![tactic(auto)]

mod bytes;
mod entries;
mod fault;
mod fields;
mod format;
mod item;
mod items;
mod laws;
mod opening;
mod piece;
mod progress;
mod reader;
mod record;
mod record_reader;
mod report;
mod reporting;
mod round;
mod stop;
mod wanted;
mod writer;
mod zeros;

pub use fault::StreamFault;
pub use item::{Frame, Mode, StreamState};
pub use laws::{
    bytes_have_one_text, closed_is_text, configured_is_written, longer_texts_stay,
    machine_closed_is_text, machine_written_is_text, read_is_spelled, readings_keep_limits,
    sections_are_flushed, shown_is_one_of_both, spelled_is_read, text_has_one_reading,
    text_has_one_report, text_is_valid_up_to_one_place, waiting_is_bounded, written_is_text,
};
pub use reader::StreamReader;
pub use record_reader::{Pause, RecordEvent, RecordReader};
pub use report::{ItemKind, Report, ReportedItem};
pub use round::StreamRound;
pub use wanted::Wanted;
pub use writer::{OpenPart, StreamWriter};
