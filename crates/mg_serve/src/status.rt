//! The exit statuses.

ghost use Rattle.std.specs.Prelude.{◌≡◌};
ghost use Rattle.mg_serve.specs.Statuses.{fault_status, graver, result_status};

use mg_model::{Fault, Reply};

/// The exit status of a fault: 1 for bad words, 2 for what was handed in, 3 for a failed read or write, 4 for want of memory, and
/// 5 for a store that is not sound or whose numbers have come to their end.
pub fn status_of(fault: &Fault) -> u8
    ensures { result ≡ fault_status fault.now }
{
    match fault {
        Fault::BadWords => 1,
        Fault::BadLine { .. } | Fault::TooLong { .. } | Fault::BadSettings { .. } => 2,
        Fault::ReadFault | Fault::WriteFault => 3,
        Fault::NoMemory => 4,
        Fault::Damaged { .. }
        | Fault::Missing { .. }
        | Fault::Gap { .. }
        | Fault::FewerParts { .. }
        | Fault::Malformed { .. }
        | Fault::Worn { .. } => 5,
    }
}

/// The status of what one call gave.
pub(crate) fn status_of_result(result_of: &Result<Reply, Fault>) -> u8
    ensures { result ≡ result_status result_of.now }
{
    match result_of {
        Ok(_) => 0,
        Err(fault) => status_of(fault),
    }
}

/// Of two statuses the graver: 5 before 3, 3 before 4, and 4 before 0.
pub(crate) fn graver_of(a: u8, b: u8) -> u8
    ensures { result ≡ graver a b }
{
    if a == 5 || b == 5 {
        5
    } else if a == 3 || b == 3 {
        3
    } else if a == 4 || b == 4 {
        4
    } else {
        0
    }
}
