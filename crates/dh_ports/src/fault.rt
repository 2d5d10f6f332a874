//! Why a call gave nothing.

ghost use Rattle.std.specs.Prelude.{◌≡◌};
ghost use Rattle.dh_ports.specs.declared.fault.Fault.TheVariants.{Memory};

use std::alloc::AllocError;
use thiserror::Error;

/// Why a statement, a look-up or a reply gave nothing.
#[derive(Clone, Copy, Debug, PartialEq, Eq, Error)]
pub enum Fault {
    #[error("the store failed")]
    Store,
    #[error("out of memory")]
    Memory,
}

/// What a look-up answers: what was found, or nothing; or why it failed.
pub type Found<T> = Result<Option<T>, Fault>;

impl From<AllocError> for Fault {
    ghost from_gives = { λ _ fault. fault ≡ Memory };

    fn from(_refused: AllocError) -> Fault {
        Fault::Memory
    }
}
