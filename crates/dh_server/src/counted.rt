//! A sink that counts.

ghost use Rattle.std.specs.Prelude.{◌≡◌};

use dh_ports::{Failed, Sink};

/// A sink, and how many bytes it took.
#[derive(Drop)]
pub struct Counted<W> {
    inner: W,
    /// How many bytes the sink took; the count stays at 2^64 - 1.
    count: u64,
}

impl<W> Counted<W> {
    /// Makes a sink that has counted nothing yet.
    pub fn new(inner: W) -> Counted<W>
        ensures inner { result.inner ≡ inner }
        ensures none { result.count ≡ 0 }
    {
        Counted { inner, count: 0 }
    }

    /// How many bytes the sink took.
    pub fn count(&self) -> u64
        ensures { result ≡ self.now.count }
    {
        self.count
    }
}

impl<W: Sink> Sink for Counted<W> {
    ghost held = { λ counted. W.held counted.inner };

    ghost broken = { λ counted. W.broken counted.inner };

    fn put(&mut self, piece: &[u8]) -> Result<usize, Failed> {
        match self.inner.put(piece) {
            Ok(count) => {
                self.count = self.count.saturating_add(count as u64);
                Ok(count)
            }
            Err(fault) => Err(fault),
        }
    }

    fn failed(&self) -> bool {
        self.inner.failed()
    }
}
