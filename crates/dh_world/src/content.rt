//! What a page may consist of: its media type and its body.
ghost use Rattle.std.specs.Prelude.{◌≡◌};
ghost use Rattle.std.specs.List.{list_all};
ghost use Rattle.dh_world.specs.WrongTexts as spec;

use crate::limits::{MOST_MEDIA_BYTES, MOST_PAGE_BYTES};

fn all_media(bytes: &[u8]) -> bool
    ensures { result ≡ list_all spec.is_media_byte bytes.now }
{
    bytes.iter().all(|b| matches!(*b, 0x20..=0x7E))
}

fn is_media(bytes: &[u8]) -> bool
    ensures { result ≡ spec.is_media bytes.now }
{
    1 <= bytes.len()
        && bytes.len() <= MOST_MEDIA_BYTES
        && all_media(bytes)
        && bytes[0] != b' '
        && bytes[bytes.len() - 1] != b' '
}

/// Whether a page may have this media type and this body: a type of 1 to 100 bytes of 0x20 to 0x7E, the
/// first and the last not a space, and a body of at most 1,048,576 bytes.
pub fn is_content(media: &str, body: &[u8]) -> bool
    ensures { result ≡ spec.is_content media.now body.now }
{
    is_media(media.as_bytes()) && body.len() <= MOST_PAGE_BYTES
}
