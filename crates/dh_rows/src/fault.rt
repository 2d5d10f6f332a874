//! Why the database refused, as a fault.

ghost use Rattle.std.specs.Prelude.{◌≡◌};
ghost use Rattle.dh_rows.specs.Faults as spec;

use dh_ports::Fault;
use sqlite::{Error, ErrorCode};

/// Tells an error of the database as a fault: `Memory` where memory is out, else `Store`.
pub fn fault_of(error: Error) -> Fault
    ensures { result ≡ spec.statement_fault error }
{
    match error {
        Error::SqliteFailure(ErrorCode::OutOfMemory) => Fault::Memory,
        _ => Fault::Store,
    }
}
