//! How answering a request ends.

use thiserror::Error;

/// The whole reply was written.
#[derive(Clone, Copy, Debug, PartialEq, Eq)]
pub struct Done {
    /// The status of the reply.
    pub status: u16,
}

/// Why no whole reply was written.
#[derive(Clone, Copy, Debug, PartialEq, Eq, Error)]
pub enum EngineFault {
    /// The reader failed. Nothing was written, and no command done.
    #[error("Read")]
    Read,
    /// The writer failed or took no byte, and exactly this many bytes of the reply went out. A command that was accepted stays.
    #[error("Write")]
    Write(usize),
    /// 100,000 reads brought no whole request. Nothing was written, and no command done.
    #[error("TooManyTurns")]
    TooManyTurns,
}
