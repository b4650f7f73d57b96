//! RAM's sections in the stream of a machine that has ids of its own for its sections.
//!
//! `mig_send` writes each section with the id 1. A machine's RAM may have another one, and a
//! section of a device that one.

ghost use Rattle.std.specs.Prelude.{◌≡◌, ◌<◌, ◌^◌, ◌∷◌, [], List, length};
ghost use Rattle.mig_mem.specs.RamTable.{RamTable};
ghost use Rattle.mig_stream.specs.declared.item.Section.{Section};
ghost use Rattle.mig_stream.specs.Text.{Record, body, section};
ghost use Rattle.mig_stream.specs.Written.{written_id};

/// The bytes of START after its size list: EOS, and the footer with the id 1.
const START_END: [u8; 13] = [0, 0, 0, 0, 0, 0, 0, 0x10, 0x7E, 0, 0, 0, 1];

/// Returns the bytes of a START without records after its size list, in the section `id`.
pub(crate) fn start_end(id: u32) -> [u8; 13]
    ensures { (table : RamTable) → result ≡ body table id [] }
{
    let mut bytes = START_END;
    bytes[9..13].copy_from_slice(&id.to_be_bytes());
    bytes
}

/// Sets the id in the head and in the footer of the section `bytes`.
pub(crate) fn set_section_id(bytes: &mut [u8], id: u32)
    ensures len { length bytes.new ≡ length bytes.old }
    ensures section { (table : RamTable) (kind : Section) (records : List Record) → bytes.old ≡ section table kind written_id records
        → bytes.new ≡ section table kind id records }
{
    let len = bytes.len();
    if len < 9 {
        return;
    }
    let id = id.to_be_bytes();
    bytes[1..5].copy_from_slice(&id);
    bytes[len - 4..len].copy_from_slice(&id);
}
