//! Tests of bytes that several texts share.

ghost use Rattle.std.specs.Prelude.{◌≡◌};
ghost use Rattle.std.specs.List.{list_all};
ghost use Rattle.dh_texts.specs.Texts.{first_byte, last_byte, is_lower_or_digit, is_no_control};

/// Whether the byte is of `a-z 0-9`.
pub fn lower_or_digit(byte: u8) -> bool
    ensures { result ≡ is_lower_or_digit byte }
{
    matches!(byte, b'a'..=b'z' | b'0'..=b'9')
}

/// The first byte, or 0 where there is none.
pub fn first_of(bytes: &[u8]) -> u8
    ensures { result ≡ first_byte bytes.now }
{
    bytes.first().copied().unwrap_or(0)
}

/// The last byte, or 0 where there is none.
pub fn last_of(bytes: &[u8]) -> u8
    ensures { result ≡ last_byte bytes.now }
{
    bytes.last().copied().unwrap_or(0)
}

/// Whether no byte is a control byte: 0x00 to 0x1F or 0x7F.
pub fn all_no_control(bytes: &[u8]) -> bool
    ensures { result ≡ list_all is_no_control bytes.now }
{
    bytes.iter().all(|b| *b >= 32 && *b != 127)
}
