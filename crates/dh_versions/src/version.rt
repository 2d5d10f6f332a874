//! A version, and what it comes from.

ghost use Rattle.std.specs.Prelude.{◌≡◌, IfOk};

use dh_texts::{RefName, Slug};
use std::alloc::{AllocError, Global};

/// What a version comes from.
#[derive(Clone, Copy, Debug, PartialEq, Eq)]
pub enum Kind {
    Branch,
    Tag,
}

/// A version of a project's documentation.
#[derive(Debug, Drop)]
pub struct Version {
    /// Its name in addresses.
    pub slug: Slug,
    pub kind: Kind,
    /// The name of the branch or tag.
    pub name: RefName,
    /// Pages of an inactive version are not served.
    pub active: bool,
    /// A hidden version is served and left out of lists.
    pub hidden: bool,
    /// A private version is served only to a pass with a grant for it.
    pub private: bool,
}

impl Version {
    /// A copy of the version.
    pub fn try_copy(&self, alloc: Global) -> Result<Version, AllocError>
        ensures { IfOk result (λ copy. copy ≡ self.now) }
    {
        Ok(Version {
            slug: self.slug.try_copy(alloc)?,
            kind: self.kind,
            name: self.name.try_copy(alloc)?,
            active: self.active,
            hidden: self.hidden,
            private: self.private,
        })
    }
}
