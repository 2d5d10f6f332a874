//! Ports that fail once their time is over.

ghost use Rattle.std.specs.Prelude.{◌≡◌, ◌||◌, false, is_err};

use dh_ports::{Failed, Sink, Source};
use std::time::{Clock, Duration, Instant};

/// A source or a sink that fails once so many seconds have passed since it was made. Where the clock fails, no time passes.
#[derive(Drop)]
pub struct Timed<T, P> {
    inner: P,
    clock: T,
    end: Option<Instant>,
    is_late: bool,
}

impl<T: Clock, P> Timed<T, P> {
    /// A port whose time begins now.
    pub fn new(clock: T, seconds: u64, inner: P) -> Timed<T, P>
        ensures inner { result.inner ≡ inner }
        ensures fresh { result.is_late ≡ false }
    {
        let end = match Instant::now(&clock) {
            Ok(now) => now.checked_add(Duration::from_secs(seconds)),
            Err(_) => None,
        };
        Timed {
            inner,
            clock,
            end,
            is_late: false,
        }
    }

    fn is_over(&self) -> bool {
        match self.end {
            Some(end) => match Instant::now(&self.clock) {
                Ok(now) => now >= end,
                Err(_) => false,
            },
            None => false,
        }
    }

    /// Fails once the time is over.
    fn check_time(&mut self) -> Result<(), Failed>
        ensures inner { self.new.inner ≡ self.old.inner }
        ensures late { self.new.is_late ≡ (self.old.is_late || is_err result) }
    {
        if self.is_over() {
            self.is_late = true;
            return Err(Failed);
        }
        Ok(())
    }
}

impl<T: Clock, R: Source> Source for Timed<T, R> {
    ghost left = { λ timed. R.left timed.inner };

    ghost broken = { λ timed. R.broken timed.inner || timed.is_late };

    fn fill(&mut self, room: &mut [u8]) -> Result<usize, Failed> {
        self.check_time()?;
        self.inner.fill(room)
    }

    fn failed(&self) -> bool {
        self.inner.failed() || self.is_late
    }
}

impl<T: Clock, W: Sink> Sink for Timed<T, W> {
    ghost held = { λ timed. W.held timed.inner };

    ghost broken = { λ timed. W.broken timed.inner || timed.is_late };

    fn put(&mut self, piece: &[u8]) -> Result<usize, Failed> {
        self.check_time()?;
        self.inner.put(piece)
    }

    fn failed(&self) -> bool {
        self.inner.failed() || self.is_late
    }
}
