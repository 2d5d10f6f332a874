//! The commands that carry a retry key.
ghost use Rattle.std.specs.Prelude.{◌≡◌};
ghost use Rattle.dh_world.specs.World as spec;

/// The commands that carry a retry key.
#[derive(Clone, Copy, Debug, PartialEq, Eq)]
pub enum Operation {
    Push,
    Upload,
}

impl Operation {
    pub fn is_upload(self) -> bool
        ensures { result ≡ spec.is_upload self }
    {
        self == Operation::Upload
    }
}
