//! Ports over the readers and writers of std.

ghost use Rattle.std.specs.Prelude.{◌≡◌, false, Some};

use crate::sink::Sink;
use crate::source::{Failed, Source};
use std::io::{Read, Write};

/// A source over a reader of std, or a sink over a writer. Each error of the reader or writer counts, `Interrupted` too.
#[derive(Drop)]
pub struct Port<T> {
    inner: T,
    stopped: bool,
    /// How often the reader was asked; the count stays at 2^64 - 1.
    reads: u64,
}

impl<T> Port<T> {
    /// A port that has not failed.
    pub fn new(inner: T) -> Port<T>
        ensures inner { result.inner ≡ inner }
        ensures fresh { result.stopped ≡ false }
    {
        Port {
            inner,
            stopped: false,
            reads: 0,
        }
    }
}

impl<T: Read> Source for Port<T> {
    ghost left = { λ port. T.remaining port.inner };

    ghost broken = { λ port. port.stopped };

    ghost fills = { λ port. Some port.reads };

    fn fill(&mut self, room: &mut [u8]) -> Result<usize, Failed> {
        self.reads = self.reads.saturating_add(1);
        match self.inner.read(room) {
            Ok(count) => Ok(count),
            Err(_) => {
                self.stopped = true;
                Err(Failed)
            }
        }
    }

    fn failed(&self) -> bool {
        self.stopped
    }
}

impl<T: Write> Sink for Port<T> {
    ghost held = { λ port. T.contents port.inner };

    ghost broken = { λ port. port.stopped };

    fn put(&mut self, piece: &[u8]) -> Result<usize, Failed> {
        match self.inner.write(piece) {
            Ok(count) => {
                if count == 0 && !piece.is_empty() {
                    self.stopped = true;
                }
                Ok(count)
            }
            Err(_) => {
                self.stopped = true;
                Err(Failed)
            }
        }
    }

    fn failed(&self) -> bool {
        self.stopped
    }
}
