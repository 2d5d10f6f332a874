//! What a page is kept under.
ghost use Rattle.std.specs.Prelude.{◌≡◌, IfOk};
ghost use Rattle.dh_page_cache.specs.Keys.{key_texts, texts_of};

use dh_texts::{HostName, Lang, Slug};
use std::alloc::{AllocError, Global};

/// The host, the version, the language and the path of a page. Two keys are equal where these texts are.
#[derive(PartialEq, Eq, Hash, Drop)]
pub struct PageKey {
    host: String,
    slug: String,
    lang: String,
    path: String,
}

impl PageKey {
    /// The key of the page at a path of a version in a language.
    pub fn new(
        alloc: Global,
        host: &HostName,
        slug: &Slug,
        lang: &Lang,
        path: &str,
    ) -> Result<PageKey, AllocError>
        ensures { IfOk result (λ key. texts_of key ≡ key_texts host.now slug.now lang.now path.now) }
    {
        Ok(PageKey {
            host: String::from_str(alloc, host.as_str())?,
            slug: String::from_str(alloc, slug.as_str())?,
            lang: String::from_str(alloc, lang.as_str())?,
            path: String::from_str(alloc, path)?,
        })
    }
}
