//! Short messages for statuses, and the version.

ghost use Rattle.std.specs.Prelude.{◌≤◌, length};
ghost use Rattle.mig_c_calls.specs.Texts.{IsText};

/// A message of the library's own, which lasts as long as the program.
#[repr(C)]
#[derive(Clone, Copy)]
pub struct StatusText {
    /// The message, then a byte 0.
    pub bytes: &'static [u8],
}

/// The version's number: 10000 * major + 100 * minor + patch.
pub const VERSION: u32 = 300;

// Returns the message of a fault of a table.
fn of_table(status: u32) -> &'static [u8]
    ensures text { IsText result.now }
    ensures short { length result.now ≤ 64 }
{
    match status {
        1 => b"no block\0",
        2 => b"more than 256 blocks\0",
        3 => b"bad block id\0",
        4 => b"block id twice\0",
        5 => b"block without pages\0",
        6 => b"blocks of more than 2^40 bytes\0",
        _ => b"unknown status\0",
    }
}

// Returns the message of a fault of a stream.
fn of_stream(status: u32) -> &'static [u8]
    ensures text { IsText result.now }
    ensures short { length result.now ≤ 64 }
{
    match status {
        11 => b"stream: no QEVM\0",
        12 => b"stream: version isn't 3\0",
        13 => b"stream: unexpected section type\0",
        14 => b"stream: section isn't ram\0",
        15 => b"stream: instance isn't 0\0",
        16 => b"stream: section version isn't 4\0",
        17 => b"stream: wrong section id\0",
        18 => b"stream: wrong footer\0",
        19 => b"stream: configuration too long\0",
        20 => b"stream: size total is 0 or above the limit\0",
        21 => b"stream: bad block id\0",
        22 => b"stream: block id twice\0",
        23 => b"stream: bad block length\0",
        24 => b"stream: more than 256 blocks\0",
        25 => b"stream: blocks longer than the total\0",
        26 => b"stream: size list out of place\0",
        27 => b"stream: unexpected flags\0",
        28 => b"stream: page of no block\0",
        29 => b"stream: page of an unknown block\0",
        30 => b"stream: offset outside the block\0",
        31 => b"stream: fill byte isn't 0\0",
        32 => b"stream: FLUSH in a single stream\0",
        33 => b"stream: page after the last FLUSH\0",
        34 => b"stream: not closed\0",
        _ => b"unknown status\0",
    }
}

// Returns the message of a fault of a channel.
fn of_channel(status: u32) -> &'static [u8]
    ensures text { IsText result.now }
    ensures short { length result.now ≤ 64 }
{
    match status {
        35 => b"channel: bad hello magic\0",
        36 => b"channel: bad hello version\0",
        37 => b"channel: other UUID\0",
        38 => b"channel: hello id too large\0",
        39 => b"channel: bad packet magic\0",
        40 => b"channel: bad packet version\0",
        41 => b"channel: unexpected packet flags\0",
        42 => b"channel: too many pages in a packet\0",
        43 => b"channel: wrong packet size\0",
        44 => b"channel: cut off\0",
        45 => b"channel: ends without SYNC\0",
        _ => b"unknown status\0",
    }
}

// Returns the message of a fault of a machine's stream, of channels together, or of a round.
fn of_load(status: u32) -> &'static [u8]
    ensures text { IsText result.now }
    ensures short { length result.now ≤ 64 }
{
    match status {
        46 => b"machine: unknown subsection\0",
        47 => b"machine: capability mapped-ram\0",
        48 => b"machine: page bits don't match\0",
        49 => b"machine: unexpected command\0",
        51 => b"channels: hello id twice\0",
        52 => b"channels: more rounds than the main stream\0",
        53 => b"channels: fewer rounds than the main stream\0",
        54 => b"round: packet of an earlier round\0",
        55 => b"round: packet twice\0",
        56 => b"round: packet missing\0",
        57 => b"round: packet of an unknown block\0",
        58 => b"round: bad offset in a packet\0",
        59 => b"round: page twice\0",
        61 => b"send: more than 255 channels\0",
        62 => b"bad batch limit\0",
        63 => b"table differs\0",
        64 => b"stream: too many records wait\0",
        65 => b"channel: too many packets wait\0",
        _ => b"unknown status\0",
    }
}

// Returns the message of a fault of a file with mapped-ram.
fn of_mapped(status: u32) -> &'static [u8]
    ensures text { IsText result.now }
    ensures short { length result.now ≤ 64 }
{
    match status {
        72 => b"mapped-ram: header version isn't 1\0",
        73 => b"mapped-ram: page size differs\0",
        74 => b"mapped-ram: bitmap out of place\0",
        75 => b"mapped-ram: bad offset of pages\0",
        76 => b"mapped-ram: bit after the last page\0",
        _ => b"unknown status\0",
    }
}

// Returns the message of a load's state, or of a refused call.
fn of_call(status: u32) -> &'static [u8]
    ensures text { IsText result.now }
    ensures short { length result.now ≤ 64 }
{
    match status {
        0 => b"done\0",
        60 => b"out of memory\0",
        100 => b"more is needed\0",
        101 => b"page size isn't 4096 or 8192\0",
        103 => b"load: more than 255 channels\0",
        104 => b"no such source\0",
        105 => b"source is over\0",
        106 => b"too many bytes\0",
        107 => b"no such page\0",
        108 => b"wrong length\0",
        109 => b"call out of turn\0",
        110 => b"too many pages for a packet\0",
        113 => b"no such frame\0",
        114 => b"no such end of rounds\0",
        115 => b"page is claimed\0",
        116 => b"bytes to be fed\0",
        _ => b"unknown status\0",
    }
}

/// Returns the message of any status.
pub fn text_of(status: u32) -> &'static [u8]
    ensures text { IsText result.now }
    ensures short { length result.now ≤ 64 }
{
    match status {
        1..=10 => of_table(status),
        11..=34 => of_stream(status),
        35..=45 => of_channel(status),
        46..=59 | 61..=65 => of_load(status),
        72..=76 => of_mapped(status),
        _ => of_call(status),
    }
}
