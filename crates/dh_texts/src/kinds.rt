//! The kinds of checked texts.

ghost use Rattle.std.specs.Prelude.{◌≡◌};
ghost use Rattle.std.specs.List.{list_all};
ghost use Rattle.dh_texts.specs.Texts.{is_host_byte, is_host_name, is_lang_byte, is_lang, is_ref_name};
ghost use Rattle.dh_texts.specs.Texts.{is_slug_byte, is_slug, is_segment, segments, is_page_path, is_token_byte, is_token};
ghost use Rattle.dh_texts.specs.declared.fault.TextFault.TheVariants.{BadHost, BadLang, BadRef, BadPath, BadToken};

use crate::checked::{Checked, Kind};
use crate::classes::{all_no_control, first_of, last_of, lower_or_digit};
use crate::fault::TextFault;
use crate::lengths::{
    MOST_HOST_BYTES, MOST_LANG_BYTES, MOST_PATH_BYTES, MOST_REF_BYTES, MOST_SLUG_BYTES,
    MOST_TOKEN_BYTES,
};

/// The name of a host, as `docs.example.org`: 1 to 253 bytes, `a-z 0-9 . -`, the first and the last a letter or digit.
pub type HostName = Checked<HostNames>;

/// A language, as `en` or `pt-br`: 2 to 16 bytes, `a-z 0-9 -`, the first a letter, the last not `-`. It is not `page`, which
/// addresses use.
pub type Lang = Checked<Langs>;

/// The name of a branch or a tag as its repository has it: 1 to 255 bytes with no control byte.
pub type RefName = Checked<RefNames>;

/// The name of a version in addresses: 1 to 128 bytes, `a-z 0-9 . _ -`, the first a letter or digit.
pub type Slug = Checked<Slugs>;

/// The path of a page in its version, as `guide/index.html`: 1 to 512 bytes, no control byte, no empty part between slashes and
/// none that is `.` or `..`.
pub type PagePath = Checked<PagePaths>;

/// A pass or a key: 1 to 64 bytes, `A-Z a-z 0-9 - . _ ~`.
pub type Token = Checked<Tokens>;

/// The kind of names of hosts.
#[derive(Debug)]
pub struct HostNames;

fn all_host(bytes: &[u8]) -> bool
    ensures { result ≡ list_all is_host_byte bytes.now }
{
    bytes
        .iter()
        .all(|b| matches!(*b, b'a'..=b'z' | b'0'..=b'9' | b'.' | b'-'))
}

impl Kind for HostNames {
    ghost test = { is_host_name };

    ghost refusal = { BadHost };

    fn passes(text: &str) -> bool {
        let bytes = text.as_bytes();
        1 <= bytes.len()
            && bytes.len() <= MOST_HOST_BYTES
            && all_host(bytes)
            && lower_or_digit(first_of(bytes))
            && lower_or_digit(last_of(bytes))
    }

    fn refusal() -> TextFault {
        TextFault::BadHost
    }
}

/// The kind of languages.
#[derive(Debug)]
pub struct Langs;

fn all_lang(bytes: &[u8]) -> bool
    ensures { result ≡ list_all is_lang_byte bytes.now }
{
    bytes
        .iter()
        .all(|b| matches!(*b, b'a'..=b'z' | b'0'..=b'9' | b'-'))
}

impl Kind for Langs {
    ghost test = { is_lang };

    ghost refusal = { BadLang };

    fn passes(text: &str) -> bool {
        let bytes = text.as_bytes();
        2 <= bytes.len()
            && bytes.len() <= MOST_LANG_BYTES
            && all_lang(bytes)
            && matches!(first_of(bytes), b'a'..=b'z')
            && last_of(bytes) != b'-'
            && text != "page"
    }

    fn refusal() -> TextFault {
        TextFault::BadLang
    }
}

/// The kind of names of branches and tags.
#[derive(Debug)]
pub struct RefNames;

impl Kind for RefNames {
    ghost test = { is_ref_name };

    ghost refusal = { BadRef };

    fn passes(text: &str) -> bool {
        let bytes = text.as_bytes();
        1 <= bytes.len() && bytes.len() <= MOST_REF_BYTES && all_no_control(bytes)
    }

    fn refusal() -> TextFault {
        TextFault::BadRef
    }
}

/// The kind of slugs.
#[derive(Debug)]
pub struct Slugs;

fn all_slug(bytes: &[u8]) -> bool
    ensures { result ≡ list_all is_slug_byte bytes.now }
{
    bytes.iter().all(|b| matches!(*b, b'a'..=b'z' | b'0'..=b'9' | b'.' | b'_' | b'-'))
}

impl Kind for Slugs {
    ghost test = { is_slug };

    ghost refusal = { BadRef };

    fn passes(text: &str) -> bool {
        let bytes = text.as_bytes();
        1 <= bytes.len()
            && bytes.len() <= MOST_SLUG_BYTES
            && all_slug(bytes)
            && lower_or_digit(first_of(bytes))
    }

    fn refusal() -> TextFault {
        TextFault::BadRef
    }
}

/// The kind of paths of pages.
#[derive(Debug)]
pub struct PagePaths;

fn segment(part: &[u8]) -> bool
    ensures { result ≡ is_segment part.now }
{
    !part.is_empty() && part != b".".as_slice() && part != b"..".as_slice()
}

fn all_segments(bytes: &[u8]) -> bool
    ensures { result ≡ list_all is_segment (segments bytes.now) }
{
    bytes.split(|b| *b == b'/').all(|part| segment(part))
}

impl Kind for PagePaths {
    ghost test = { is_page_path };

    ghost refusal = { BadPath };

    fn passes(text: &str) -> bool {
        let bytes = text.as_bytes();
        1 <= bytes.len()
            && bytes.len() <= MOST_PATH_BYTES
            && all_no_control(bytes)
            && all_segments(bytes)
    }

    fn refusal() -> TextFault {
        TextFault::BadPath
    }
}

/// The kind of passes and keys.
#[derive(Debug)]
pub struct Tokens;

fn all_token(bytes: &[u8]) -> bool
    ensures { result ≡ list_all is_token_byte bytes.now }
{
    bytes.iter().all(
        |b| matches!(*b, b'A'..=b'Z' | b'a'..=b'z' | b'0'..=b'9' | b'-' | b'.' | b'_' | b'~'),
    )
}

impl Kind for Tokens {
    ghost test = { is_token };

    ghost refusal = { BadToken };

    fn passes(text: &str) -> bool {
        let bytes = text.as_bytes();
        1 <= bytes.len() && bytes.len() <= MOST_TOKEN_BYTES && all_token(bytes)
    }

    fn refusal() -> TextFault {
        TextFault::BadToken
    }
}
