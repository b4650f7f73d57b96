//! The calls that report the version, the messages of statuses, and the texts of faults.

ghost use Rattle.std.specs.Prelude.{◌≡◌, None, Some, if◌then◌else◌};
ghost use Rattle.mig_c_calls.specs.Texts.{IsText, version};
ghost use Rattle.mig_c_calls.specs.FaultTexts.{LogsFault};

use mig_c_calls::{LoggedFault, StatusText, VERSION, log_fault, text_of};
use mig_c_loads::FoundFault;

/// Returns the version's number.
#[unsafe(no_mangle)]
pub extern "C" fn zimgasol_version() -> u32
    ensures { result ≡ version }
{
    VERSION
}

/// Reports the message of a status.
#[unsafe(no_mangle)]
pub extern "C" fn zimgasol_read_status_text(status: u32, out: &mut StatusText)
    ensures { IsText out.new.bytes.now }
{
    out.bytes = text_of(status);
}

/// Writes the text of a fault, as far as there is room, and a byte 0. Returns the text's length.
#[unsafe(no_mangle)]
pub extern "C" fn zimgasol_read_fault_text(
    fault: &FoundFault,
    has_at: bool,
    at: u64,
    out: &mut [u8],
) -> u64
    ensures { LogsFault (record { round = fault.now.round; source = fault.now.source; number = fault.now.number; first = fault.now.first; second = fault.now.second })
        (if has_at then Some at else None) result out.old out.new }
{
    let logged = LoggedFault {
        round: fault.round,
        source: fault.source,
        number: fault.number,
        first: fault.first,
        second: fault.second,
    };
    let place = if has_at { Some(at) } else { None };
    log_fault(logged, place, out)
}
