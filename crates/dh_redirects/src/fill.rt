//! Compares From with a text, and fills the rest into To.

ghost use Rattle.std.specs.Prelude.{◌≡◌, ◌==◌, ◌<◌, [], ◌∷◌, ◌++◌, drop, IfSome, IfOk, OnOk, Some, None, MatchOption, string_bytes, length, codes};
ghost use Rattle.std.specs.List.{prefix_len};
ghost use Rattle.std.specs.Option.{option_copied, option_map_or};
ghost use Rattle.dh_texts.specs.Bytes.{slash};
ghost use Rattle.dh_redirects.specs.Locations.{matched, sent, after_colon, colon_parts, filled, one_slash};

use dh_texts::{encode_path, rest_after};
use percent_encoding::{AsciiSet, CONTROLS, ascii_set, utf8_percent_encode};
use std::alloc::{AllocError, Global};

/// The ASCII bytes of To that are escaped.
const UNSENT: AsciiSet = ascii_set!(CONTROLS.add(b' ').add(b'\\'));

/// The rest that a final `*` of From stands for; none where From does not fit the text.
pub fn rest_of<'a>(source: &str, text: &'a str) -> Option<&'a str>
    ensures { MatchOption result (matched source.now text.now ≡ None)
        (λ rest. matched source.now text.now ≡ Some rest.now) }
{
    match source.strip_suffix('*') {
        Some(front) => rest_after(text, front),
        None if text == source => Some(""),
        None => None,
    }
}

fn push_sent(out: &mut String, text: &str) -> Result<(), AllocError>
    ensures { OnOk result (string_bytes out.new ≡ string_bytes out.old ++ sent text.now) }
{
    utf8_percent_encode(text, UNSENT).append_to(out)
}

/// What stands before the first `:`, and after it.
fn at_colon(text: &str) -> (&str, Option<&str>)
    ensures parts { colon_parts text.now
        ≡ result.0.now ∷ option_map_or colon_parts (option_copied result.1) [] }
    ensures shorter { IfSome result.1 (λ rest. length rest.now < length text.now) }
{
    match text.split_once(':') {
        Some((first, rest)) => (first, Some(rest)),
        None => (text, None),
    }
}

#[tactic(auto, unfolding(crate::specs::Locations::sent))]
fn push_after_colon(out: &mut String, part: &str, rest: &str) -> Result<(), AllocError>
    ensures { OnOk result
        (string_bytes out.new ≡ string_bytes out.old ++ after_colon rest.now part.now) }
{
    match rest_after(part, "splat") {
        Some(tail) => {
            out.push_str(rest)?;
            push_sent(out, tail)
        }
        None => {
            out.push(':')?;
            push_sent(out, part)
        }
    }
}

/// Writes To, with the rest in place of each `:splat`. On an error a part of it is written.
pub fn push_filled(
    alloc: Global,
    out: &mut String,
    target: &str,
    rest: &str,
) -> Result<(), AllocError>
    ensures { OnOk result
        (string_bytes out.new ≡ string_bytes out.old ++ filled rest.now target.now) }
{
    let encoded = encode_path(alloc, rest)?;
    let (first, mut others) = at_colon(target);
    push_sent(out, first)?;
    while let Some(text) = others {
        let (part, left) = at_colon(text);
        push_after_colon(out, part, encoded.as_str())?;
        others = left;
    }
    Ok(())
}

/// What follows the leading slashes.
fn after_slashes(text: &str) -> &str
    ensures { result.now ≡ drop (prefix_len (λ b. b == slash) text.now) text.now }
{
    text.trim_start_matches('/')
}

/// Makes the leading slashes of a path one.
pub fn single_slash(alloc: Global, text: &str) -> Result<String, AllocError>
    ensures { IfOk result (λ path. string_bytes path ≡ one_slash text.now) }
{
    let rest = after_slashes(text);
    format!(in alloc; "/{rest}")
}
