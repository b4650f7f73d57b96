//! Laws of the definitions alone: what follows from what a table, a memory and a round are,
//! whatever code keeps them.
//!
//! Each law is the clause of a function that does nothing. So it is proved with the crate, and a
//! caller who calls the function may use it.

ghost use Rattle.mig_mem.specs.RamTable.{EqualTablesAreTheSame};
ghost use Rattle.mig_mem.specs.Refusal.{TableIsLawful};
ghost use Rattle.mig_mem.specs.Round.{ImagesMakeRounds, RoundsMakeMemory, OnePageMore, OneRoundMore, RoundsGoOnto, RoundsBeginWithZeros, AllPagesMakeMemory};
ghost use Rattle.mig_mem.specs.Tracking.{TrackingGivesLastImage};
ghost use Rattle.mig_mem.specs.Lent.{LentPagesAreParts};

/// A list of blocks has no refusal exactly if it makes a lawful table. So `Table::new` refuses
/// blocks within the limits with `NoMemory` alone.
pub fn table_is_lawful()
    ensures { TableIsLawful }
{}

/// `==` holds of two tables exactly if they are the same, as `Table::same` answers.
pub fn equal_tables_are_the_same()
    ensures { EqualTablesAreTheSame }
{}

/// The dirty pages of a memory, with their contents in it, are a round of its table. So what a
/// sender is passed is a round.
pub fn images_make_rounds()
    ensures { ImagesMakeRounds }
{}

/// The memory after rounds is a memory of the table.
pub fn rounds_make_memory()
    ensures { RoundsMakeMemory }
{}

/// After a round of one page, the memory has that page's content at its place, and is unchanged
/// elsewhere.
pub fn one_page_more()
    ensures { OnePageMore }
{}

/// After one more round, the memory has at each place the content of the last page of that round
/// there, and is unchanged elsewhere.
pub fn one_round_more()
    ensures { OneRoundMore }
{}

/// Rounds that are applied to a memory begin with its contents, and leave a memory of its table.
/// One more round is applied to what those before it left.
pub fn rounds_go_onto()
    ensures { RoundsGoOnto }
{}

/// The memory after rounds is a memory of zeros with these rounds applied.
pub fn rounds_begin_with_zeros()
    ensures { RoundsBeginWithZeros }
{}

/// A round of all pages of a memory leaves that memory, whatever was there before. So a guest whose
/// sender sends all pages once can be loaded over any contents.
pub fn all_pages_make_memory()
    ensures { AllPagesMakeMemory }
{}

/// The content of a place of lent bytes is its page's part of its block's bytes. So a caller who
/// knows the bytes knows the pages, and the other way round.
pub fn lent_pages_are_parts()
    ensures { LentPagesAreParts }
{}

/// With faithful tracking from zeros on, the memory after the rounds is the last image. So a sender
/// whose dirty sets leave out no change has sent the guest's memory.
pub fn tracking_gives_last_image()
    ensures { TrackingGivesLastImage }
{}
