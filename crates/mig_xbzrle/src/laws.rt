//! Laws of the definitions alone: properties of deltas, whatever code reads them.

ghost use Rattle.mig_xbzrle.specs.Law.{HasReading, HasOneReading, LawfulIsFaultless, HasOneFault, HasOnePageAfter, ReadsLawfulRuns};

/// Bytes spell a lawful delta of a page or have a first fault, never both, and only one of these. A
/// page has at most one page after a delta.
pub fn delta_has_one_reading()
    ensures some { HasReading }
    ensures reading { HasOneReading }
    ensures faultless { LawfulIsFaultless }
    ensures fault { HasOneFault }
    ensures page { HasOnePageAfter }
{}

/// A run is read exactly where bytes begin with one that is lawful there. So a fault is where they
/// begin with none.
pub fn lawful_runs_are_read()
    ensures { ReadsLawfulRuns }
{}
