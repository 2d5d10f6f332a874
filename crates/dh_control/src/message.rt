//! A message: what it asks for, and of which file.

ghost use Rattle.std.specs.Prelude.{◌≡◌, map, position, string_bytes, IfOk};
ghost use Rattle.std.specs.List.{slice_split};
ghost use Rattle.std.specs.Option.{option_map};
ghost use Rattle.dh_control.specs.Messages as spec;

use std::alloc::{AllocError, Global};

/// The beginning of each message of this version; the name of the file that it is for follows, and the end of the line.
pub const VERSION: &str = "docs_host 2 ";

/// The beginning of what asks for the words of one order, with a NUL between each two.
pub const WORDS: &str = "words\n";

/// The beginning of what asks for one line of a script.
pub const LINE: &str = "line\n";

/// The beginning of what asks for an import: the host, a NUL, and the list.
pub const IMPORT: &str = "import\n";

/// The byte that ends a message; no text has it.
pub const LAST: u8 = 255;

/// The most bytes of a message: those of a line or of a list, and 2,048 beside it.
pub const MOST_MESSAGE_BYTES: usize = 1_050_624;

/// Takes the end off a message. None where a message has no end, as one that was cut.
pub fn body_of(message: &[u8]) -> Option<&[u8]>
    ensures { option_map (λ body. body.now) result ≡ spec.body_of message.now }
{
    match message.split_last() {
        Some((last, body)) if *last == LAST => Some(body),
        _ => None,
    }
}

/// What stands behind a mark, where the bytes begin with it.
pub fn behind<'a>(mark: &str, bytes: &'a [u8]) -> Option<&'a [u8]>
    ensures { option_map (λ rest. rest.now) result ≡ spec.behind mark.now bytes.now }
{
    if bytes.starts_with(mark.as_bytes()) {
        Some(&bytes[mark.len()..])
    } else {
        None
    }
}

/// What stands behind the head of a body, where it is for this file.
pub fn rest_for<'a>(file: &str, body: &'a [u8]) -> Option<&'a [u8]>
    ensures { option_map (λ rest. rest.now) result ≡ spec.rest_for file.now body.now }
{
    let named = behind(VERSION, body)?;
    let line = behind(file, named)?;
    behind("\n", line)
}

/// The words that were sent: the texts between the NULs.
pub fn words_of(alloc: Global, text: &str) -> Result<Vec<String>, AllocError>
    ensures { IfOk result (λ words. map string_bytes words.items
        ≡ slice_split spec.is_nul text.now) }
{
    let mut words = Vec::new(alloc);
    for word in text.split('\0') {
        words.push(String::from_str(alloc, word)?)?;
    }
    Ok(words)
}

/// Where the host ends of an import that was sent.
fn nul_in(sent: &[u8]) -> Option<usize>
    ensures { result ≡ position spec.is_nul sent.now }
{
    sent.iter().position(|byte| *byte == 0)
}

/// The host and the list of an import that was sent.
pub fn host_and_list(sent: &[u8]) -> Option<(&[u8], &[u8])>
    ensures { option_map (λ parts. (parts.0.now, parts.1.now)) result ≡ spec.host_and_list sent.now }
{
    let at = nul_in(sent)?;
    Some((&sent[..at], &sent[at + 1..]))
}
