//! When a pass ends.

ghost use Rattle.std.specs.Prelude.{◌≡◌, pos, Some, None, if◌then◌else◌};
ghost use Rattle.dh_world.specs.WrongTexts.{is_end};

use std::marker::Model;

/// The second since 1970 at which a pass ends: the pass is live before that second, and not from then on.
/// The number fits 64 bits with a sign, so that a column can hold it.
#[derive(Drop)]
pub struct PassEnd {
    second: u64,
}

impl Model for PassEnd {
    ghost use Rattle.std.specs.Prelude.{ℕ, ◌<◌, ◌^◌};

    ghost Value = { ℕ };

    ghost view = { λ end. end.second };

    ghost invariant = { λ end. end.second < 2 ^ 63 };
}

impl PassEnd {
    /// The end at a second, or none where a column cannot hold it.
    pub fn new(second: u64) -> Option<PassEnd>
        ensures { result ≡ (if is_end second then Some second else None) }
    {
        if second < 1 << 63 {
            Some(PassEnd { second })
        } else {
            None
        }
    }

    /// The second since 1970.
    pub fn second(&self) -> u64
        ensures { result ≡ self.now }
    {
        self.second
    }

    /// The second as the signed number that a column holds.
    pub fn number(&self) -> i64
        ensures { result ≡ pos self.now }
    {
        self.second as i64
    }
}
