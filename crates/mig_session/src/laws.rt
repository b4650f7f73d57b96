//! Laws of sessions: what follows from the definitions, as clauses of functions that do nothing.

ghost use Rattle.mig_session.specs.Ahead.{AnswersAhead};
ghost use Rattle.mig_session.specs.Law.{SentIsLoadedInPieces, SentIsLoadedWithin, MachineSentIsLoadedInPieces};

/// The streams of a sender on several channels are loaded by any session that was fed them, in
/// whatever pieces and order of the sources.
pub fn sent_is_loaded_in_pieces()
    ensures sent { SentIsLoadedInPieces }
    ensures within { SentIsLoadedWithin }
{}

/// So are those with a machine's main stream, whatever follows RAM's END.
pub fn machine_sent_is_loaded_in_pieces()
    ensures { MachineSentIsLoadedInPieces }
{}

/// Bytes of sources that have the round that is judged next change no answer of a running load.
pub fn answers_are_ahead()
    ensures { AnswersAhead }
{}
