//! The versions of a project: which names are releases, and which versions the aliases stand for.
#![tactic(auto)]

pub mod aliases;
mod laws;
pub mod releases;
pub mod version;

pub use aliases::{higher, latest, stable};
pub use laws::releases_by_grammar;
pub use releases::{is_semver, release};
pub use version::{Kind, Version};
