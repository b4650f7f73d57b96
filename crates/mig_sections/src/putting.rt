//! Reads a piece of a stream, and writes the sections that it completes into a memory of the
//! stream's table.

ghost use Rattle.std.specs.Prelude.{◌≡◌, ◌+◌, ◌<◌, ◌^◌, ◌++◌, ℕ, Bool, List, length, false, IsTrue, IsFalse, IsOk, IfOk, OnErr, Some};
ghost use Rattle.mig_mem.specs.Image.{Image, IsImage};
ghost use Rattle.mig_load_types.specs.declared.settings.LoadSettings.{LoadSettings};
ghost use Rattle.mig_load_types.specs.Settings.{for_table};
ghost use Rattle.mig_stream.specs.Reader.{Stands, IsFinal};
ghost use Rattle.mig_single_load.specs.Loader.{put_so_far, memory_with, HasPutSections, HasPutAllSections};
ghost use Rattle.mig_single_load.specs.LoadInPlace.{settings_for};
ghost use Rattle.mig_sections.specs.Sections.{HasSections, Takes, TakesSome, ReadsSome, reader_if};

use mig_assemble::{name_records, put_records};
use mig_mem::{Dirty, GuestTarget, NoMemory};
use mig_stream::StreamReader;
use std::alloc::Allocator;

// Writes each complete section that waits into a memory of the stream's table, and adds the places
// of its records to `named`.
fn put_sections<A: Allocator, M: GuestTarget>(
    reader: &mut StreamReader<'_, A>,
    memory: &mut M,
    named: &mut Dirty<A>,
    sections: &mut u64,
)
    requires some { TakesSome (M.image memory.old).table sections.old reader.old }
    requires named { named.old.table ≡ (M.image memory.old).table }
    ensures takes { (given : LoadSettings) (text : List ℕ) → Takes given (M.image memory.old).table text sections.old reader.old
        → Takes given (M.image memory.old).table text sections.new reader.new }
    ensures puts { (given : LoadSettings) (first : Image) (text : List ℕ)
        → HasPutSections (for_table first.table given) first text false reader.old (memory_with (M.image memory.old) named.old sections.old)
        → HasPutAllSections (for_table first.table given) first text (memory_with (M.image memory.new) named.new sections.new) }
    ensures table { (M.image memory.new).table ≡ (M.image memory.old).table }
    ensures named_table { named.new.table ≡ named.old.table }
    ensures fed { reader.new.fed ≡ reader.old.fed }
    ensures ended { reader.new.ended ≡ reader.old.ended }
{
    'sections: while let Ok(Some(section)) = reader.take_round() {
        put_records(memory, &section);
        name_records(named, &section);
        *sections += 1;
    }
}

/// Reads the next piece of the stream, and writes the sections that it completes. Returns whether
/// the stream has the memory's table, or none yet. An `Err` changes nothing.
pub(crate) fn read_piece<A: Allocator + Copy, M: GuestTarget>(
    reader: &mut StreamReader<'_, A>,
    memory: &mut M,
    named: &mut Dirty<A>,
    sections: &mut u64,
    piece: &[u8],
) -> Result<bool, NoMemory>
    requires open { IsFalse reader.old.ended }
    requires room { reader.old.fed + length piece.now < 2 ^ 63 }
    requires some { ReadsSome (M.image memory.old).table sections.old reader.old }
    requires named { named.old.table ≡ (M.image memory.old).table }
    ensures ok { IfOk result (λ own. (given : LoadSettings) (first : Image) (text : List ℕ) → IsImage first → HasSections given first text (M.image memory.old) named.old sections.old (Some reader.old)
        → HasSections given first (text ++ piece.now) (M.image memory.new) named.new sections.new (reader_if own reader.new)) }
    ensures some { IfOk result (λ own. IsTrue own → ReadsSome (M.image memory.old).table sections.new reader.new) }
    ensures err { OnErr result ((reader.new ≡ reader.old) × (M.image memory.new ≡ M.image memory.old) × (named.new ≡ named.old) × (sections.new ≡ sections.old)) }
    ensures settled { (given : LoadSettings) (text : List ℕ) → Stands (settings_for (M.image memory.old).table given) (put_so_far text false sections.old) reader.old
        → IsFinal (settings_for (M.image memory.old).table given) text → IsOk result }
    ensures table { (M.image memory.new).table ≡ (M.image memory.old).table }
    ensures named_table { named.new.table ≡ named.old.table }
    ensures fed { IfOk result (λ own. reader.new.fed ≡ reader.old.fed + length piece.now) }
    ensures open { IsFalse reader.new.ended }
{
    reader.feed(piece)?;
    let Some(table) = reader.table() else {
        return Ok(true);
    };
    if !table.same(memory.table()) {
        return Ok(false);
    }
    put_sections(reader, memory, named, sections);
    Ok(true)
}
