//! Laws of the definitions alone: relations of streams and their readings, whatever code writes and
//! reads them.
//!
//! Each law is the clause of a function that does nothing. So it is proved with the crate, and a
//! caller who calls the function may use it.

ghost use Rattle.mig_stream.specs.MachineWritten.{MachineSinglesAreTexts, MachineMainsAreTexts, WrittenIsClosed, ConfiguredIsWritten, ConfiguredIsClosed};
ghost use Rattle.mig_stream.specs.Law.{HasOneReading, SpelledIsRead, ReadIsSpelled, ClosedIsText, MachineClosedIsText, HasOneText, SinglesAreTexts, MainsAreTexts, RecordsStandForPages, ReadingsKeepLimits, LongerTextsStay};
ghost use Rattle.mig_stream.specs.Flushed.{SectionsAreFlushed, SectionsHaveNoTail, SectionsAreMore};
ghost use Rattle.mig_stream.specs.Limited.{WaitingIsBounded, FullRoundIsRefused, LimitOnlyRefuses, LimitLetsThrough};
ghost use Rattle.mig_stream.specs.Shown.{ShownIsOneOfBoth, MachineShownIsOneOfBoth, FlushIsShown, MachineFlushIsShown, EosIsShown, MachineEosIsShown};
ghost use Rattle.mig_stream.specs.Law.{IsValidUpToOnePlace, LongerTextsStayValid, ClosedIsValid, ClosedIsFirst, BadIsValidBefore};
ghost use Rattle.mig_stream.specs.Report.{HasReport, HasOneReport, ReportsUpToValid, LongerTextsReportMore};

/// Bytes have exactly one reading. So every reader of them, in any pieces, finds the same table,
/// rounds and first fault.
pub fn text_has_one_reading()
    ensures { HasOneReading }
{}

/// Bytes that are a stream by its format (`IsText`) are read as that stream, whatever bytes follow.
pub fn spelled_is_read()
    ensures { SpelledIsRead }
{}

/// Bytes that are read to their end byte have a prefix that is that stream by its format.
pub fn read_is_spelled()
    ensures { ReadIsSpelled }
{}

/// Bytes are read to an end byte exactly if a prefix of them is a stream, of that table and those
/// rounds.
pub fn closed_is_text()
    ensures { ClosedIsText }
{}

/// No bytes have two prefixes that are streams.
pub fn bytes_have_one_text()
    ensures { HasOneText }
{}

/// The bytes that a writer writes of rounds of a lawful table within the limit are a single stream.
/// It has a round for START and one for END around them, and its records represent the pages of the
/// rounds. The bytes that it writes of FLUSHes are a main stream with as many rounds.
pub fn written_is_text()
    ensures single { SinglesAreTexts }
    ensures main { MainsAreTexts }
    ensures pages { RecordsStandForPages }
{}

/// A stream has no more complete rounds than bytes, and none before its table is known. The table
/// has the page size that was passed.
pub fn readings_keep_limits()
    ensures { ReadingsKeepLimits }
{}

/// The reading of a stream stays, whatever bytes follow: its complete rounds are the first ones of
/// the longer stream, and its table is that stream's too. After the end byte, or a fault, nothing
/// changes.
pub fn longer_texts_stay()
    ensures { LongerTextsStay }
{}

/// A stream is valid up to exactly one byte offset, which `valid_up_to` of each reader returns.
/// That many of its bytes are complete items without a fault, and no more are. More bytes can only
/// increase the offset. Once the stream is closed or bad, it stays: at the end of the stream, or
/// where the item at fault begins. A stream is closed by the bytes before that offset, and by no
/// fewer; a background snapshot by these and the type byte of the first device's section.
pub fn text_is_valid_up_to_one_place()
    ensures one { IsValidUpToOnePlace }
    ensures longer { LongerTextsStayValid }
    ensures closed { ClosedIsValid }
    ensures first { ClosedIsFirst }
    ensures bad { BadIsValidBefore }
{}

/// Bytes are read as a machine's stream to the end of RAM exactly if a prefix of them is one, of
/// that table and those rounds: up to the footer of RAM's END, whatever bytes follow it. Or the
/// prefix is the RAM of a background snapshot, which has no END, and the type byte of the first
/// device's section follows it.
pub fn machine_closed_is_text()
    ensures { MachineClosedIsText }
{}

/// The bytes that a writer writes for a machine's stream, of rounds or of FLUSHes, are a machine's
/// stream of these rounds. That holds with a machine's name of at most 1,024 bytes before RAM's
/// START, and without one.
pub fn machine_written_is_text()
    ensures single { MachineSinglesAreTexts }
    ensures main { MachineMainsAreTexts }
{}

/// The bytes that a writer writes after the file header serve for each machine. With a
/// configuration between them they are what it writes for a machine of that name, up to RAM's END
/// or with the end byte. Without a name they are what it writes of RAM alone.
pub fn configured_is_written()
    ensures open_end { ConfiguredIsWritten }
    ensures closed_end { ConfiguredIsClosed }
    ensures no_name { WrittenIsClosed }
{}

/// A main stream of `Mode::MainBySection` is read as the same stream with a FLUSH before each EOS
/// is read with `Mode::Main`: its table, its rounds and its state are the same. It is valid up to
/// the same item. No page record in it is without the end of its round, so `Tail` isn't its fault.
/// A stream that is closed in both modes has at least two rounds more in `Mode::MainBySection`, so
/// no channels belong to it in both.
pub fn sections_are_flushed()
    ensures flushed { SectionsAreFlushed }
    ensures tail { SectionsHaveNoTail }
    ensures more { SectionsAreMore }
{}

/// A main stream of `Mode::MainAsShown` is one of `Mode::Main` or of `Mode::MainBySection`, with
/// the same table and rounds. One of `Mode::Main` is one of `Mode::MainAsShown`, if START has a
/// FLUSH or the first record after START is one. One of `Mode::MainBySection` is, if neither is
/// so.
pub fn shown_is_one_of_both()
    ensures one { ShownIsOneOfBoth }
    ensures machine_one { MachineShownIsOneOfBoth }
    ensures flush { FlushIsShown }
    ensures machine_flush { MachineFlushIsShown }
    ensures eos { EosIsShown }
    ensures machine_eos { MachineEosIsShown }
{}

/// Of the page records of a section, or of a round of a main stream, no more wait than the caller's
/// limit. A stream that would have more is at fault. The limit does nothing but refuse.
pub fn waiting_is_bounded()
    ensures bounded { WaitingIsBounded }
    ensures full { FullRoundIsRefused }
    ensures only { LimitOnlyRefuses }
    ensures through { LimitLetsThrough }
{}

/// A stream has exactly one report, however its bytes are cut into pieces. The report ends at the
/// byte up to which the stream is valid. A longer stream has the same items, and more after them.
pub fn text_has_one_report()
    ensures exists { HasReport }
    ensures one { HasOneReport }
    ensures valid { ReportsUpToValid }
    ensures longer { LongerTextsReportMore }
{}
