//! A sink that hands small pieces on together.

ghost use Rattle.std.specs.Prelude.{◌≡◌, ◌≤◌, ◌++◌, Bool, ℕ, List, Option, [], drop, false, is_err, vec_len, OnOk, if◌then◌else◌};
ghost use Rattle.std.specs.Io.KnownBytes.{Keeps, append_known};

use dh_ports::{Failed, Sink, put_all};
use std::alloc::Global;

/// The most bytes that are kept.
const MOST_JOINED: usize = 16_384;

/// A sink that keeps the first pieces, up to 16 KiB in all, and hands them on together: at the first piece that does not fit, or
/// where `hand_on` is called. From then on it keeps none. A large piece is never copied.
#[derive(Drop)]
pub struct Joined<W> {
    inner: W,
    kept: Vec<u8>,
    /// How many of the kept bytes were handed on.
    gone: usize,
    direct: bool,
    ghost bounded: { gone ≤ vec_len kept },
}

impl<W> Joined<W> {
    /// Makes a sink that keeps nothing yet.
    pub fn new(alloc: Global, inner: W) -> Joined<W>
        ensures inner { result.inner ≡ inner }
        ensures empty { drop result.gone result.kept.items ≡ [] }
    {
        Joined {
            inner,
            kept: Vec::new(alloc),
            gone: 0,
            direct: false,
        }
    }

    /// Keeps a piece where it still fits, and answers whether it did.
    fn keep(&mut self, piece: &[u8]) -> bool
        ensures inner { self.new.inner ≡ self.old.inner }
        ensures kept { drop self.new.gone self.new.kept.items
            ≡ drop self.old.gone self.old.kept.items ++ (if result then piece.now else []) }
    {
        let room = MOST_JOINED.saturating_sub(self.kept.len());
        !self.direct && piece.len() <= room && self.kept.extend_from_slice(piece).is_ok()
    }

    /// The sink below.
    pub fn inner(&self) -> &W
        ensures { result.now ≡ self.now.inner }
    {
        &self.inner
    }
}

impl<W: Sink> Joined<W> {
    /// Hands on what was kept, and keeps it no more. At `Err(n)` exactly the first n bytes of it went out.
    pub fn hand_on(&mut self) -> Result<(), usize>
        requires { W.broken self.old.inner ≡ false }
        ensures ok { OnOk result (Keeps
            (append_known (W.held self.old.inner) (drop self.old.gone self.old.kept.items))
            (W.held self.new.inner)) }
        ensures none { OnOk result (drop self.new.gone self.new.kept.items ≡ []) }
        ensures held { Keeps
            (append_known (W.held self.old.inner) (drop self.old.gone self.old.kept.items))
            (append_known (W.held self.new.inner) (drop self.new.gone self.new.kept.items)) }
        ensures cause { W.broken self.new.inner ≡ is_err result }
    {
        self.direct = true;
        match put_all(&mut self.inner, &self.kept[self.gone..]) {
            Ok(()) => {
                self.gone = self.kept.len();
                Ok(())
            }
            Err(count) => {
                self.gone += count;
                Err(count)
            }
        }
    }
}

impl<W: Sink> Sink for Joined<W> {
    ghost held = { λ joined.
        append_known (W.held joined.inner) (drop joined.gone joined.kept.items) };

    ghost broken = { λ joined. W.broken joined.inner };

    fn put(&mut self, piece: &[u8]) -> Result<usize, Failed> {
        if self.inner.failed() {
            return Err(Failed);
        }
        if self.keep(piece) {
            return Ok(piece.len());
        }
        if self.hand_on().is_err() {
            return Err(Failed);
        }
        self.inner.put(piece)
    }

    fn failed(&self) -> bool {
        self.inner.failed()
    }
}
