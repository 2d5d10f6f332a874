//! The slug of a version, from the name of its branch or tag.

ghost use Rattle.std.specs.Prelude.{◌≡◌, ◌<◌, IfOk, OnOk, OnErr, Err, string_bytes, length};
ghost use Rattle.dh_texts.specs.Texts.{AnswersDefined};
ghost use Rattle.dh_texts.specs.SlugOfName.{slug_char, slug_text, slug_from, with_byte};

use crate::classes::lower_or_digit;
use crate::fault::TextFault;
use crate::kinds::{RefName, Slug};
use std::alloc::{AllocError, Global};

fn lowered(c: char) -> u8
    ensures value { result ≡ slug_char c }
    ensures ascii { result < 128 }
{
    match c {
        'A'..='Z' => c as u8 + 32,
        'a'..='z' | '0'..='9' | '.' | '_' | '-' => c as u8,
        _ => b'-',
    }
}

/// Adds a byte, unless it would begin the text and is no letter or digit.
fn push_byte(text: &mut String, byte: u8) -> Result<(), AllocError>
    requires { byte < 128 }
    ensures text { OnOk result (string_bytes text.new ≡ with_byte (string_bytes text.old) byte) }
    ensures memory { OnErr result (0 < length (with_byte (string_bytes text.old) byte)) }
{
    if text.is_empty() && !lower_or_digit(byte) {
        return Ok(());
    }
    text.push(char::from(byte))
}

fn make_slug_text(alloc: Global, name: &str) -> Result<String, AllocError>
    ensures text { IfOk result (λ s. string_bytes s ≡ slug_text name.now) }
    ensures memory { OnErr result (0 < length (slug_text name.now)) }
{
    let mut text = String::new(alloc);
    for c in name.chars() {
        push_byte(&mut text, lowered(c))?;
    }
    Ok(text)
}

/// The slug of the version that a branch or a tag makes: capitals lowered, each character that a slug cannot hold
/// made `-`, and what stands before the first letter or digit left out. A name that leaves no text, or more than
/// 128 bytes, is refused by `BadRef`.
pub fn slug_of(alloc: Global, name: &RefName) -> Result<Slug, TextFault>
    ensures slug { AnswersDefined (slug_from name.now) TextFault.BadRef result }
    ensures memory { result ≡ Err TextFault.Memory → 0 < length (slug_text name.now) }
{
    let text = make_slug_text(alloc, name.as_str())?;
    Slug::parse(alloc, text.as_str())
}
