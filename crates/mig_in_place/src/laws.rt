//! Laws of the answers of a load in place: what follows from the definitions, as clauses of
//! functions that do nothing.

ghost use Rattle.mig_in_place.specs.Law.{InPlaceTellsAlike, InPlaceDoneIsExact, InPlaceDoneStays, WaitingBytesChangeNothing, RunningTakesSome, SentIsLoadedInPlace, SentIsLoadedWithin, MachineSentIsLoadedInPlace};

/// Rounds and verdict are those of any load on several channels.
pub fn in_place_tells_alike()
    ensures { InPlaceTellsAlike }
{}

/// A load that is done has all rounds in the memory, on top of what it held, and nothing else.
pub fn in_place_done_is_exact()
    ensures { InPlaceDoneIsExact }
{}

/// A load that is done stays done, whatever bytes follow.
pub fn in_place_done_stays()
    ensures { InPlaceDoneStays }
{}

/// Bytes that wait with the caller change no answer.
pub fn waiting_bytes_change_nothing()
    ensures { WaitingBytesChangeNothing }
{}

/// As long as a load runs it takes bytes of some source.
pub fn running_takes_some()
    ensures { RunningTakesSome }
{}

/// The streams of a sender on several channels are loaded in place, once the channels have ended.
/// The main stream is closed by its own bytes, and needn't be ended.
pub fn sent_is_loaded_in_place()
    ensures sent { SentIsLoadedInPlace }
    ensures within { SentIsLoadedWithin }
{}

/// The streams of a sender on several channels with a machine's main stream are loaded in place,
/// whatever follows RAM's END.
pub fn machine_sent_is_loaded_in_place()
    ensures { MachineSentIsLoadedInPlace }
{}
