//! Why tables could not be made or opened.

ghost use Rattle.std.specs.Prelude.{◌≡◌};
ghost use Rattle.dh_ports.specs.declared.fault.Fault.TheVariants.{Memory};
ghost use Rattle.dh_opening.specs.declared.fault.TablesFault.TheVariants.{Failed};

use dh_ports::Fault;
use std::alloc::AllocError;
use thiserror::Error;

/// Why tables could not be made or opened.
#[derive(Clone, Copy, Debug, PartialEq, Eq, Error)]
pub enum TablesFault {
    #[error("{0}")]
    Failed(Fault),
    /// The tables cannot be made, or are not as they are made, or their rows break a constraint.
    #[error("the tables are not ours")]
    NotOurs,
    /// The number says that the tables are of schema 1.
    #[error("the tables are of schema 1")]
    OldSchema,
}

impl From<AllocError> for TablesFault {
    ghost from_gives = { λ _ fault. fault ≡ Failed Memory };

    fn from(_error: AllocError) -> TablesFault {
        TablesFault::Failed(Fault::Memory)
    }
}

impl From<Fault> for TablesFault {
    ghost from_gives = { λ fault told. told ≡ Failed fault };

    fn from(fault: Fault) -> TablesFault {
        TablesFault::Failed(fault)
    }
}
