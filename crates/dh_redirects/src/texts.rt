//! What the texts of a redirect are.

ghost use Rattle.std.specs.Prelude.{◌≡◌, ◌<◌, ◌==◌, Some};
ghost use Rattle.std.specs.List.{before_first};
ghost use Rattle.dh_redirects.specs.Redirects.{splat, has_text, is_path, begins_with_host, is_absolute, is_short_text, ends_in_star, has_early_star};

use dh_texts::{all_no_control, rest_after};

/// What stands before the first mark, or all where there is none.
pub fn before(text: &str, mark: char) -> &str
    requires { mark < 128 }
    ensures { result.now ≡ before_first (λ b. b == mark) text.now }
{
    match text.split_once(mark) {
        Some((front, _)) => front,
        None => text,
    }
}

/// Whether the text begins with a slash.
pub fn path(text: &str) -> bool
    ensures { result ≡ is_path text.now }
{
    text.starts_with('/')
}

/// Whether `:splat` stands somewhere in the text.
pub fn holds_splat(text: &str) -> bool
    ensures { result ≡ has_text splat text.now }
{
    text.contains(":splat")
}

/// Whether a text that follows `http://` or `https://` begins with a host.
#[tactic(auto, using(crate::proofs::TextLemmas::before_either))]
fn host_first(text: &str) -> bool
    ensures { result ≡ begins_with_host (Some text.now) }
{
    let host = before(before(before(text, '#'), '?'), '/');
    !host.is_empty() && !holds_splat(host)
}

/// Whether the text is `http://` or `https://` and a host, with anything behind it.
pub fn absolute(target: &str) -> bool
    ensures { result ≡ is_absolute target.now }
{
    rest_after(target, "http://").is_some_and(|rest| host_first(rest))
        || rest_after(target, "https://").is_some_and(|rest| host_first(rest))
}

/// The most bytes of From and of To.
pub const MOST_REDIRECT_BYTES: usize = 512;

/// Whether the text has at most 512 bytes and no control byte.
pub fn short_text(text: &str) -> bool
    ensures { result ≡ is_short_text text.now }
{
    text.len() <= MOST_REDIRECT_BYTES && all_no_control(text.as_bytes())
}

/// Whether the last byte is a `*`.
pub fn final_star(source: &str) -> bool
    ensures { result ≡ ends_in_star source.now }
{
    source.as_bytes().last().copied().unwrap_or(0) == b'*'
}

/// Whether a `*` stands before the last byte.
pub fn early_star(source: &str) -> bool
    ensures { result ≡ has_early_star source.now }
{
    match source.as_bytes().split_last() {
        Some((_, front)) => front.contains(&b'*'),
        None => false,
    }
}
