//! Where bytes come from.

ghost use Rattle.std.specs.Prelude.{◌≡◌, ℕ, ◌≤◌, ◌||◌, Bool, List, length, Option, None, is_err, IfOk};
ghost use Rattle.std.specs.Io.KnownBytes.{ReadConsumes};
ghost use Rattle.dh_ports.specs.Ports.{CountsUpTo, CountsAtLeast};

use thiserror::Error;

/// A port failed, and no byte moved in that call.
#[derive(Clone, Copy, Debug, PartialEq, Eq, Error)]
#[error("a port failed")]
pub struct Failed;

/// Where bytes come from.
pub trait Source {
    // The bytes that are left, where the source tells them.
    ghost left: { Self → Option (List ℕ) };

    // A call failed.
    ghost broken: { Self → Bool };

    // How often the source was asked, where it counts. A count stays at 2^64 - 1.
    ghost fills: { Self → Option ℕ } = { λ _. None };

    /// Fills the front of the room, and answers how many bytes it gave. It gives 0 bytes only at the end, or where there is no room.
    fn fill(&mut self, room: &mut [u8]) -> Result<usize, Failed>
        ensures bound { IfOk result (λ count. count ≤ length room.new) }
        ensures bytes { ReadConsumes (left self.old) (left self.new) result room.new }
        ensures failed { broken self.new ≡ (broken self.old || is_err result) }
        ensures counted { CountsUpTo (fills self.old) (fills self.new) 1 }
        ensures asked { CountsAtLeast (fills self.old) (fills self.new) 1 };

    /// Whether a call failed.
    fn failed(&self) -> bool
        ensures { result ≡ broken self.now };
}
