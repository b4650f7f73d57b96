//! The law of the packets: they are a sending.

ghost use Rattle.zimgasol_packing.specs.Dealt.{PacketsAreASending};

/// Packets of a memory's pages are a sending of a round without pages and one with these.
pub fn packets_are_a_sending()
    ensures { PacketsAreASending }
{}
