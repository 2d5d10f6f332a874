//! The other name of a file: `install/` and `install.html`.

ghost use Rattle.std.specs.Prelude.{◌≡◌, IsTrue, IfOk, OnErr, is_some, Some, None, MatchOption};
ghost use Rattle.dh_redirects.specs.Locations.{stem, html_file, clean_file};

use dh_texts::Text;
use std::alloc::{AllocError, Global};

/// What stands before the end of a file, where the file has this end and is longer.
fn stem_of<'a>(file: &'a str, end: &str) -> Option<&'a str>
    ensures { MatchOption result (stem end.now file.now ≡ None)
        (λ front. stem end.now file.now ≡ Some front.now) }
{
    let Some(stem) = file.strip_suffix(end) else {
        return None;
    };
    if stem.is_empty() { None } else { Some(stem) }
}

/// The file `p.html` of `p/` or `p/index.html`; none for another file.
pub fn html_of(alloc: Global, file: &str) -> Result<Option<Text>, AllocError>
    ensures value { IfOk result (λ r. r ≡ html_file file.now) }
    ensures memory { OnErr result (IsTrue (is_some (html_file file.now))) }
{
    match stem_of(file, "/index.html").or(stem_of(file, "/")) {
        Some(stem) => Ok(Some(Text::wrap(format!(in alloc; "{stem}.html")?))),
        None => Ok(None),
    }
}

/// The file `p/` of `p.html` or `p/index.html`; none for another file.
pub fn clean_of(alloc: Global, file: &str) -> Result<Option<Text>, AllocError>
    ensures value { IfOk result (λ r. r ≡ clean_file file.now) }
    ensures memory { OnErr result (IsTrue (is_some (clean_file file.now))) }
{
    if file == "index.html" {
        return Ok(Some(Text::wrap(String::new(alloc))));
    }
    match stem_of(file, "/index.html").or(stem_of(file, ".html")) {
        Some(stem) => Ok(Some(Text::wrap(format!(in alloc; "{stem}/")?))),
        None => Ok(None),
    }
}
