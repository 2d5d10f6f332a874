//! Where bytes go to.

ghost use Rattle.std.specs.Prelude.{◌≡◌, ℕ, ◌<◌, ◌≤◌, ◌||◌, ◌++◌, Bool, false, List, length, take, Option, is_err, IfOk, OnOk, IfErr};
ghost use Rattle.std.specs.Io.KnownBytes.{Appends, WriteAppends};
ghost use Rattle.dh_ports.specs.Ports.{put_stops, PutsFirst};

use crate::source::Failed;

/// Where bytes go to.
pub trait Sink {
    // The bytes that are held, where the sink tells them.
    ghost held: { Self → Option (List ℕ) };

    // A call failed, or took no byte of a piece that has some.
    ghost broken: { Self → Bool };

    /// Takes bytes from the front of the piece, and answers how many.
    fn put(&mut self, piece: &[u8]) -> Result<usize, Failed>
        ensures bound { IfOk result (λ count. count ≤ length piece.now) }
        ensures bytes { WriteAppends (held self.old) (held self.new) result piece.now }
        ensures failed { broken self.new
            ≡ (broken self.old || put_stops result (length piece.now)) };

    /// Whether a call failed, or took no byte of a piece that has some.
    fn failed(&self) -> bool
        ensures { result ≡ broken self.now };
}

/// Writes all bytes. At `Err(n)` a call failed or took no byte, and exactly the first n bytes went out.
pub fn put_all<W: Sink>(out: &mut W, bytes: &[u8]) -> Result<(), usize>
    requires { W.broken out.old ≡ false }
    ensures ok { OnOk result (Appends (W.held out.old) (W.held out.new) bytes.now) }
    ensures err { IfErr result (PutsFirst (W.held out.old) (W.held out.new) bytes.now) }
    ensures cause { W.broken out.new ≡ is_err result }
{
    let mut at = 0;
    while at < bytes.len() {
        match out.put(&bytes[at..]) {
            Ok(0) => return Err(at),
            Ok(count) => at += count,
            Err(_) => return Err(at),
        }
    }
    Ok(())
}

/// Writes two pieces, one behind the other, without a copy of either. At `Err(n)` exactly the first n bytes of both went out.
pub fn put_both<W: Sink>(out: &mut W, front: &[u8], back: &[u8]) -> Result<(), usize>
    requires { W.broken out.old ≡ false }
    ensures ok { OnOk result
        (Appends (W.held out.old) (W.held out.new) (front.now ++ back.now)) }
    ensures err { IfErr result
        (PutsFirst (W.held out.old) (W.held out.new) (front.now ++ back.now)) }
    ensures cause { W.broken out.new ≡ is_err result }
{
    put_all(out, front)?;
    match put_all(out, back) {
        Ok(()) => Ok(()),
        Err(count) => Err(front.len() + count),
    }
}
