//! Reads numbers of decimal digits alone; `parse` takes a plus as well.

ghost use Rattle.std.specs.Prelude.{◌≡◌, ◌^◌};
ghost use Rattle.std.specs.Char.{is_ascii_digit};
ghost use Rattle.std.specs.List.{list_all};
ghost use Rattle.dh_texts.specs.Numbers.{decimal_below};

fn all_digits(text: &str) -> bool
    ensures { result ≡ list_all is_ascii_digit text.now }
{
    text.as_bytes().iter().all(|b| b.is_ascii_digit())
}

/// The number of at most 64 bits that digits alone write.
pub fn read_u64(text: &str) -> Option<u64>
    ensures { result ≡ decimal_below (2 ^ 64) text.now }
{
    if !all_digits(text) {
        return None;
    }
    match text.parse::<u64>() {
        Ok(number) => Some(number),
        Err(_) => None,
    }
}

/// The number of at most 32 bits that digits alone write.
pub fn read_u32(text: &str) -> Option<u32>
    ensures { result ≡ decimal_below (2 ^ 32) text.now }
{
    u32::try_from(read_u64(text)?).ok()
}

/// The number of at most 16 bits that digits alone write.
pub fn read_u16(text: &str) -> Option<u16>
    ensures { result ≡ decimal_below (2 ^ 16) text.now }
{
    u16::try_from(read_u64(text)?).ok()
}
