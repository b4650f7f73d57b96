//! The values that a case has built so far: a guest, streams, and the settings of calls.

use crate::guest::Guest;
use crate::trouble::{Done, Trouble};
use crate::words::{Words, id_of, number_of};
use mig_mem::{MAX_TOTAL, PAGE_SIZE_4K, Table, TableFault, is_page_size};
use std::alloc::Global;
use std::rt::Files;
use uuid::Uuid;

/// The values that a case has built so far.
#[derive(Drop)]
pub struct Case {
    pub alloc: Global,
    pub page_size: u64,
    pub limit: u64,
    pub uuid: Uuid,
    pub channels: usize,
    /// Whether a stream is read as a machine's stream. If not, it is read as RAM's sections.
    pub is_machine: bool,
    /// Whether streams have ended after they were fed.
    pub is_over: bool,
    /// The lengths of the pieces in which a stream is fed, one length after another; 0 is all at
    /// once.
    pub pieces: Vec<usize>,
    pub blocks: Vec<(Vec<u8>, u64)>,
    pub guest: Option<Guest>,
    /// The streams, of which the lines change the last one.
    pub texts: Vec<Vec<u8>>,
}

impl Case {
    pub fn new(alloc: Global) -> Result<Case, Trouble> {
        Ok(Case {
            alloc,
            page_size: PAGE_SIZE_4K,
            limit: MAX_TOTAL,
            uuid: Uuid::nil(),
            channels: 1,
            is_machine: false,
            is_over: true,
            pieces: Vec::from_slice(alloc, &[0, 1, 63, 1000])?,
            blocks: Vec::new(alloc),
            guest: None,
            texts: Vec::new(alloc),
        })
    }

    /// Takes a line that builds something. Returns false if the line is another one.
    pub fn take<R: Files>(&mut self, rt: &R, name: &str, words: Words) -> Result<bool, Trouble> {
        if name == "file" {
            self.file(rt, words)?;
            return Ok(true);
        }
        Ok(
            self.setting(name, words)?
                || self.change(name, words)?
                || self.change_guest(name, words)?,
        )
    }

    // Takes a line on the settings of calls. Returns false if the line is another one.
    fn setting(&mut self, name: &str, mut words: Words) -> Result<bool, Trouble> {
        match name {
            "page" => {
                self.page_size = words.number()?;
                if !is_page_size(self.page_size) {
                    return Err(Trouble::Line);
                }
            }
            "limit" => self.limit = words.number()?,
            "uuid" => self.uuid = Uuid::parse_str(words.word()?).ok().ok_or(Trouble::Line)?,
            "channels" => self.channels = words.size()?,
            "machine" => self.is_machine = true,
            "open" => self.is_over = false,
            "pieces" => self.set_pieces(words)?,
            _ => return Ok(false),
        }
        Ok(true)
    }

    fn set_pieces(&mut self, words: Words) -> Done {
        self.pieces.clear();
        for word in words.rest().split(' ') {
            let len = usize::try_from(number_of(word)?).ok().ok_or(Trouble::Line)?;
            self.pieces.push(len)?;
        }
        Ok(())
    }

    // Takes a line on blocks, or on changes of the guest. Returns false if the line is another one.
    fn change_guest(&mut self, name: &str, words: Words) -> Result<bool, Trouble> {
        let alloc = self.alloc;
        match name {
            "block" => self.block(words)?,
            "blocks" => self.many_blocks(words)?,
            "anew" => {
                self.blocks.clear();
                self.guest = None;
            }
            "set" => self.guest()?.set(words)?,
            "fill" => self.guest()?.fill(alloc, words)?,
            "wipe" => self.guest()?.wipe(words)?,
            "copy" => self.guest()?.copy_image()?,
            "touch" => self.guest()?.touch(words)?,
            "clear" => self.guest()?.dirty.clear(),
            _ => return Ok(false),
        }
        Ok(true)
    }

    /// Returns the table of the blocks, or the fault for which they don't make one.
    pub fn table(&self) -> Result<Result<Table, TableFault>, Trouble> {
        let mut list = Vec::new(self.alloc);
        for (id, pages) in &self.blocks {
            list.push((Vec::from_slice(self.alloc, id)?, *pages))?;
        }
        if !is_page_size(self.page_size) {
            return Err(Trouble::Line);
        }
        match Table::new(self.alloc, self.page_size, list) {
            Err(TableFault::NoMemory) => Err(Trouble::NoMemory),
            made => Ok(made),
        }
    }

    /// Returns the guest. The first line that needs it makes it from the blocks.
    pub fn guest(&mut self) -> Result<&mut Guest, Trouble> {
        if self.guest.is_none() {
            let table = self.table()?.ok().ok_or(Trouble::Line)?;
            self.guest = Some(Guest::new(self.alloc, &table)?);
        }
        self.guest.as_mut().ok_or(Trouble::Line)
    }

    // `block PAGES ID`
    fn block(&mut self, mut words: Words) -> Done {
        let pages = words.number()?;
        let id = id_of(self.alloc, words.rest())?;
        self.blocks.push((id, pages))?;
        Ok(())
    }

    // `blocks COUNT PAGES`: with ids of three letters, `baa`, `bab` ..
    fn many_blocks(&mut self, mut words: Words) -> Done {
        let count = u16::try_from(words.number()?).ok().ok_or(Trouble::Line)?;
        let pages = words.number()?;
        for i in 0..count {
            let letters = [b'b', b'a' + (i / 26 % 26) as u8, b'a' + (i % 26) as u8];
            let id = Vec::from_slice(self.alloc, &letters)?;
            self.blocks.push((id, pages))?;
        }
        Ok(())
    }
}
