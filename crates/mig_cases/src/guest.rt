//! The guest of a case: its memory and its marks.

use crate::again;
use crate::trouble::{Done, Trouble};
use crate::words::Words;
use mig_mem::{Dirty, Memory, Place, Table};
use std::alloc::Global;
use std::mem;

/// A guest between two lines.
#[derive(Drop)]
pub struct Guest {
    pub image: Memory,
    pub dirty: Dirty,
}

impl Guest {
    /// Creates a guest whose memory is zeros, with no page marked.
    pub fn new(alloc: Global, table: &Table) -> Result<Guest, Trouble> {
        Ok(Guest {
            image: Memory::zeroed(alloc, table)?,
            dirty: Dirty::none(alloc, table)?,
        })
    }

    /// Marks a page, and returns whether it is new. None if the table lacks it.
    pub fn mark(&mut self, place: Place) -> Result<Option<bool>, Trouble> {
        if !self.dirty.table().holds(place) {
            return Ok(None);
        }
        Ok(Some(again!(self.dirty.mark(place))?))
    }

    /// Removes the mark of a page, and returns how many marks are left. None if the table lacks the
    /// page.
    pub fn unmark(&mut self, place: Place) -> Option<u64> {
        if !self.dirty.table().holds(place) {
            return None;
        }
        self.dirty.unmark(place);
        Some(self.dirty.count())
    }

    /// `set BLOCK OFFSET BYTE`: writes a byte, and marks its page.
    pub fn set(&mut self, mut words: Words) -> Done {
        let block = words.size()?;
        let offset = words.number()?;
        let byte = words.byte()?;
        let table = self.image.table();
        let page_size = table.page_size();
        if block >= table.len() || offset >= table.pages(block) * page_size {
            return Err(Trouble::Line);
        }
        self.image.set(block, offset, byte);
        let page = offset.checked_div(page_size).ok_or(Trouble::Line)?;
        let _ = self.mark(Place { block, page })?;
        Ok(())
    }

    /// `fill BLOCK PAGES BYTE`: fills the pages, and marks them.
    pub fn fill(&mut self, alloc: Global, mut words: Words) -> Done {
        let block = words.size()?;
        let (first, last) = words.range()?;
        let byte = words.byte()?;
        for page in first..=last {
            let place = Place { block, page };
            let _ = self.mark(place)?.ok_or(Trouble::Line)?;
            self.fill_page(alloc, place, byte)?;
        }
        Ok(())
    }

    fn fill_page(&mut self, alloc: Global, place: Place, byte: u8) -> Done {
        let table = self.image.table();
        if !table.holds(place) {
            return Err(Trouble::Line);
        }
        let page = vec![in alloc; byte; table.page_size() as usize]?;
        self.image.put_page(place, &page);
        Ok(())
    }

    /// `wipe BLOCK PAGES`: makes the pages zeros, and marks them.
    pub fn wipe(&mut self, mut words: Words) -> Done {
        let block = words.size()?;
        let (first, last) = words.range()?;
        for page in first..=last {
            let place = Place { block, page };
            let _ = self.mark(place)?.ok_or(Trouble::Line)?;
            self.wipe_page(place)?;
        }
        Ok(())
    }

    fn wipe_page(&mut self, place: Place) -> Done {
        if !self.image.table().holds(place) {
            return Err(Trouble::Line);
        }
        self.image.put_zero_page(place);
        Ok(())
    }

    /// `copy`: from here on the memory is a copy of itself.
    pub fn copy_image(&mut self) -> Done {
        self.image = self.image.try_copy()?;
        Ok(())
    }

    /// Returns the guest's memory and marks, and clears the marks.
    pub fn take_round(&mut self, alloc: Global) -> Result<Guest, Trouble> {
        let image = again!(self.image.try_copy())?;
        let unmarked = Dirty::none(alloc, self.image.table())?;
        let dirty = mem::replace(&mut self.dirty, unmarked);
        Ok(Guest { image, dirty })
    }

    /// `touch BLOCK PAGES`: marks the pages.
    pub fn touch(&mut self, mut words: Words) -> Done {
        let block = words.size()?;
        let (first, last) = words.range()?;
        for page in first..=last {
            let _ = self.mark(Place { block, page })?.ok_or(Trouble::Line)?;
        }
        Ok(())
    }
}
