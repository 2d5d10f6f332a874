//! Sentences and the names of faults, with levels.

ghost use Rattle.std.specs.Prelude.{◌≡◌, ◌<◌, ◌≤◌, false, length, None, IfOk};
ghost use Rattle.dh_ports.specs.Ports.{put_stops};

use dh_ports::{Failed, Sink, put_all};

/// A sink, each of whose lines begins with its level, where lines have levels: the name of a fault is an error, a sentence a
/// warning, but for that of a server that begins. It does not tell what it holds.
#[derive(Drop)]
pub struct Leveled<W> {
    inner: W,
    has_levels: bool,
    /// Whether the next byte begins a line.
    is_at_start: bool,
}

/// The level of a line that begins so.
fn level_mark(piece: &[u8]) -> &'static str {
    if piece.starts_with(b"fault ") {
        return "<3>";
    }
    if piece.starts_with(b"docs_host: serving ") {
        return "<6>";
    }
    "<4>"
}

/// Up to the end of the first line, or all where no line ends.
fn first_part(piece: &[u8]) -> &[u8]
    requires { 0 < length piece.now }
    ensures some { 0 < length result.now }
    ensures few { length result.now ≤ length piece.now }
{
    match piece.iter().position(|b| *b == b'\n') {
        Some(at) => &piece[..at + 1],
        None => piece,
    }
}

impl<W> Leveled<W> {
    /// Makes a sink over another one, at the start of a line.
    pub fn new(inner: W, has_levels: bool) -> Leveled<W>
        ensures inner { result.inner ≡ inner }
        ensures levels { result.has_levels ≡ has_levels }
    {
        Leveled {
            inner,
            has_levels,
            is_at_start: true,
        }
    }
}

impl<W: Sink> Leveled<W> {
    /// Puts what is of the first line of a piece, behind the level where it begins the line.
    fn put_part(&mut self, piece: &[u8]) -> Result<usize, Failed>
        requires some { 0 < length piece.now }
        requires fine { W.broken self.old.inner ≡ false }
        ensures bound { IfOk result (λ count. count ≤ length piece.now) }
        ensures failed { W.broken self.new.inner ≡ put_stops result (length piece.now) }
    {
        if self.is_at_start && put_all(&mut self.inner, level_mark(piece).as_bytes()).is_err() {
            return Err(Failed);
        }
        let part = first_part(piece);
        let count = self.inner.put(part)?;
        self.is_at_start = part[..count].ends_with(b"\n");
        Ok(count)
    }
}

impl<W: Sink> Sink for Leveled<W> {
    ghost held = { λ _. None };

    ghost broken = { λ leveled. W.broken leveled.inner };

    fn put(&mut self, piece: &[u8]) -> Result<usize, Failed> {
        if !self.has_levels || self.inner.failed() || piece.is_empty() {
            return self.inner.put(piece);
        }
        self.put_part(piece)
    }

    fn failed(&self) -> bool {
        self.inner.failed()
    }
}
