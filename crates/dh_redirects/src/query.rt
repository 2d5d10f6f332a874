//! The query and the fragment of an address (RFC 3986, sections 3.4 and 3.5).

ghost use Rattle.std.specs.Prelude.{◌≡◌, ◌==◌, IfOk, string_bytes, length, drop};
ghost use Rattle.std.specs.Option.{option_copied, option_eq};
ghost use Rattle.std.specs.Str.{bytes_eq};
ghost use Rattle.dh_redirects.specs.Locations.{without_fragment, path_part, query_part, with_query_of, is_request};

use crate::redirect::Asked;
use crate::texts::before;
use dh_texts::same_path;
use std::alloc::{AllocError, Global};

fn query_of(text: &str) -> Option<&str>
    ensures { option_copied result ≡ query_part text.now }
{
    let (_, query) = before(text, '#').split_once('?')?;
    Some(query)
}

/// The address without its fragment, and the fragment with its `#`.
fn at_fragment(text: &str) -> (&str, &str)
    ensures address { result.0.now ≡ without_fragment text.now }
    ensures fragment { result.1.now ≡ drop (length (without_fragment text.now)) text.now }
{
    let address = before(text, '#');
    (address, &text[address.len()..])
}

/// Adds the query to an address that has none, before the fragment.
#[tactic(auto, unfolding(crate::specs::Locations::with_query_of))]
pub fn with_query(alloc: Global, text: &str, query: Option<&str>) -> Result<String, AllocError>
    ensures { IfOk result
        (λ address. string_bytes address ≡ with_query_of text.now (option_copied query.entry)) }
{
    match query {
        Some(query) if query_of(text).is_none() => {
            let (address, fragment) = at_fragment(text);
            let mut out = String::from_str(alloc, address)?;
            out.push('?')?;
            out.push_str(query)?;
            out.push_str(fragment)?;
            Ok(out)
        }
        _ => String::from_str(alloc, text),
    }
}

/// Whether the address is that of the request itself.
pub fn leads_back(text: &str, asked: &Asked) -> bool
    ensures { result ≡ is_request text.now asked.now }
{
    let path = before(before(text, '#'), '?');
    let query = asked.query.as_ref().map(|query| query.as_str());
    same_path(path, asked.path.as_str()) && query_of(text) == query
}
