//! Why a text is refused.

ghost use Rattle.std.specs.Prelude.{◌≡◌};
ghost use Rattle.dh_texts.specs.declared.fault.TextFault.TheVariants.{Memory};

use std::alloc::{AllocError, AllocFailed};
use thiserror::Error;

/// Why a text was refused.
#[derive(Clone, Copy, Debug, PartialEq, Eq, Error)]
pub enum TextFault {
    #[error("not a host's name")]
    BadHost,
    #[error("not a language")]
    BadLang,
    #[error("not the name of a branch, a tag or a version")]
    BadRef,
    #[error("not the path of a page")]
    BadPath,
    #[error("not a token")]
    BadToken,
    #[error("not a request target")]
    BadTarget,
    #[error("out of memory")]
    Memory,
}

impl From<AllocError> for TextFault {
    ghost from_gives = { λ _ fault. fault ≡ Memory };

    fn from(_refused: AllocError) -> TextFault {
        TextFault::Memory
    }
}

impl<T: Drop> From<AllocFailed<T>> for TextFault {
    ghost from_gives = { λ _ fault. fault ≡ Memory };

    fn from(_refused: AllocFailed<T>) -> TextFault {
        TextFault::Memory
    }
}
