//! What `latest`, `stable` and the default are for a class of callers.

use dh_paths::Slug;

/// What `latest`, `stable` and the default are for a class of callers.
#[derive(Debug, Drop)]
pub struct Names {
    /// The slug of the version that `latest` stands for.
    pub latest: Option<Slug>,
    /// The slug of the version that `stable` stands for.
    pub stable: Option<Slug>,
    /// The name that leads to the default version: a slug, or the name of an alias.
    pub default: Option<Slug>,
}
