//! The next bytes of a paused stream, so that a caller reads the content of a page straight to its
//! destination, and copies nothing. QEMU's threads for channels read that way.

ghost use Rattle.std.specs.Prelude.{◌≡◌, ◌∷◌, ◌++◌, ◌<◌, [], ℕ, List, length, MatchOption, IfSome, IsSome, Some};
ghost use Rattle.mig_stream.specs.declared.wanted.Wanted.TheVariants as wanted;
ghost use Rattle.mig_stream.specs.PageRecord.{page_record};
ghost use Rattle.mig_stream.specs.Reading.{Settings};
ghost use Rattle.mig_stream.specs.Giving.{GivenSoFar, with_more, PausesAt};
ghost use Rattle.mig_stream.specs.Wanted.{page_due, AreWanted};

use crate::item::{Due, Filling};
use crate::record_reader::Pause;
use mig_mem::Place;
use std::alloc::Allocator;

/// The next bytes of a stream.
#[derive(Clone, Copy, Debug, PartialEq, Eq)]
pub enum Wanted {
    /// The content of the page at this place, from its first byte on.
    Page(Place),
    /// The next bytes of an item, at least 1. With fewer bytes the item isn't complete.
    Bytes(usize),
}

impl<A: Allocator + Copy> Pause<A> {
    /// Returns what the next bytes of the stream are. A caller that has `Bytes` reads no more than
    /// those, and resumes with them. A caller that has a `Page` reads its content to its
    /// destination, and calls `take_page`, or resumes with it as with any other bytes.
    pub fn wanted(&self) -> Wanted
        ensures { MatchOption (page_due self.now) ((n : ℕ) × (result ≡ wanted.Bytes n) × AreWanted self.now n) (λ place. result ≡ wanted.Page place) }
    {
        if self.pending.is_empty() {
            if let Due::Content(Filling::Normal, place) = self.progress.due {
                return Wanted::Page(place);
            }
        }
        let size = self.progress.size(&self.pending);
        Wanted::Bytes(size - self.pending.len())
    }

    /// Takes all of the content of the next page, as the next bytes of the stream. The bytes are
    /// neither read nor kept: the caller already has the page where it belongs.
    pub fn take_page(&mut self, content: &[u8])
        requires due { IsSome (page_due self.old) }
        requires len { length content.now ≡ self.old.progress.page_size }
        ensures { IfSome (page_due self.old) (λ place. (given : Settings) (text : List ℕ) (so_far : GivenSoFar) → PausesAt given text so_far self.old
            → PausesAt given (text ++ content.now) (with_more (page_record place content.now ∷ []) so_far) self.new) }
    {
        self.progress.pass_page();
        self.fed = self.fed.saturating_add(content.len() as u64);
    }
}
