//! Messages, as a client makes them.

ghost use Rattle.std.specs.Prelude.{◌≡◌, ◌++◌, map, string_bytes, IfOk};
ghost use Rattle.dh_control.specs.Messages as spec;

use crate::message::{IMPORT, LAST, LINE, VERSION, WORDS};
use std::alloc::{AllocError, Global};

/// Joins the words, with a NUL between each two.
fn joined(alloc: Global, words: &[String]) -> Result<String, AllocError>
    ensures { IfOk result
        (λ text. string_bytes text ≡ spec.words_joined (map string_bytes words.now)) }
{
    words.join(alloc, "\0")
}

/// Begins a message to the server of a file, of this kind.
fn begun(alloc: Global, file: &str, kind: &str) -> Result<Vec<u8>, AllocError>
    ensures { IfOk result (λ message. message.items ≡ spec.head_of file.now ++ kind.now) }
{
    let mut message = Vec::new(alloc);
    message.extend_from_slice(VERSION.as_bytes())?;
    message.extend_from_slice(file.as_bytes())?;
    message.push(b'\n')?;
    message.extend_from_slice(kind.as_bytes())?;
    Ok(message)
}

/// Makes the message that orders these words of the program of the server of a file. It reads the same words, if none of them has
/// a NUL.
pub fn words_message(alloc: Global, file: &str, words: &[String]) -> Result<Vec<u8>, AllocError>
    ensures { IfOk result (λ message. message.items
        ≡ spec.words_message file.now (map string_bytes words.now)) }
{
    let joined = joined(alloc, words)?;
    let mut message = begun(alloc, file, WORDS)?;
    message.extend_from_slice(joined.as_bytes())?;
    message.push(LAST)?;
    Ok(message)
}

/// Makes the message that has a line of a script done by the server of a file.
pub fn line_message(alloc: Global, file: &str, line: &str) -> Result<Vec<u8>, AllocError>
    ensures { IfOk result (λ message. message.items ≡ spec.line_message file.now line.now) }
{
    let mut message = begun(alloc, file, LINE)?;
    message.extend_from_slice(line.as_bytes())?;
    message.push(LAST)?;
    Ok(message)
}

/// Makes the message that has the redirects of a list added to a project by the server of a file. It reads the same host, if that
/// has no NUL.
pub fn import_message(
    alloc: Global,
    file: &str,
    host: &str,
    list: &[u8],
) -> Result<Vec<u8>, AllocError>
    ensures { IfOk result (λ message. message.items
        ≡ spec.import_message file.now host.now list.now) }
{
    let mut message = begun(alloc, file, IMPORT)?;
    message.extend_from_slice(host.as_bytes())?;
    message.push(0)?;
    message.extend_from_slice(list)?;
    message.push(LAST)?;
    Ok(message)
}
