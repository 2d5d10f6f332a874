//! Redirects of old lists, which write the rest as `$rest` at the end of From.

ghost use Rattle.std.specs.Prelude.{◌≡◌, ◌++◌, IfOk, option_map};
ghost use Rattle.dh_redirects.specs.Redirects as spec;

use crate::redirect::Redirect;
use dh_texts::Text;
use std::alloc::{AllocError, Global};

/// What stands before `$rest`, where From ends so.
fn before_rest(source: &str) -> Option<&str>
    ensures { option_map (λ front. front.now) result ≡ spec.before_rest source.now }
{
    source.strip_suffix("$rest")
}

fn with_end(alloc: Global, front: &str, end: &str) -> Result<Text, AllocError>
    ensures { IfOk result (λ text. text ≡ front.now ++ end.now) }
{
    Ok(Text::wrap(format!(in alloc; "{front}{end}")?))
}

/// Rewrites a redirect of an old list: `*` takes the place of `$rest`, and To gets `:splat` at its end.
pub fn from_old(alloc: Global, old: Redirect) -> Result<Redirect, AllocError>
    ensures { IfOk result (λ new. new ≡ spec.from_old old) }
{
    let Some(front) = before_rest(old.source.as_str()) else {
        return Ok(old);
    };
    Ok(Redirect {
        kind: old.kind,
        source: with_end(alloc, front, "*")?,
        target: with_end(alloc, old.target.as_str(), ":splat")?,
        status: old.status,
        force: old.force,
    })
}
