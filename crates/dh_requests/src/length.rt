//! How long the body of a request is, by its head.

ghost use Rattle.std.specs.Prelude.{◌≡◌, ◌≤◌, true, IfOk};
ghost use Rattle.std.specs.List.{list_all};
ghost use Rattle.std.specs.Str.Parse.{digits_value};
ghost use Rattle.dh_texts.specs.Texts.{is_digit};
ghost use Rattle.dh_requests.specs.Fields.{one_of};
ghost use Rattle.dh_requests.specs.Lengths as lengths;

use crate::fields::Lines;

/// Why the length of a body is refused.
#[derive(Clone, Copy, Debug, PartialEq, Eq, Drop)]
pub enum LengthFault {
    /// No line tells the length, or the body comes in a transfer coding.
    Untold,
    /// Two lines tell the length, or the one line is no number.
    Wrong,
    /// The length is above 4,194,304.
    TooLarge,
}

/// The most bytes of a body.
pub const MOST_BODY_BYTES: usize = 4_194_304;

/// The status of a request that is refused for the length of its body.
pub fn length_status(fault: LengthFault) -> u16
    ensures { result ≡ lengths.length_status fault }
{
    match fault {
        LengthFault::Untold => 411,
        LengthFault::Wrong => 400,
        LengthFault::TooLarge => 413,
    }
}

fn all_digits(text: &[u8]) -> bool
    ensures { result ≡ list_all is_digit text.now }
{
    text.iter().all(|b| matches!(*b, b'0'..=b'9'))
}

/// Whether the text is one or more digits.
fn is_number(text: &[u8]) -> bool
    ensures { result ≡ lengths.is_number text.now }
{
    match text.split_first() {
        None => false,
        Some((first, rest)) => matches!(*first, b'0'..=b'9') && all_digits(rest),
    }
}

fn as_text(digits: &[u8]) -> &str
    requires { lengths.is_number digits.now ≡ true }
    ensures { result.now ≡ digits.now }
{
    match str::from_utf8(digits) {
        Ok(text) => text,
        Err(_) => unreachable!(),
    }
}

/// The number that the digits write, if a body may have this many bytes.
fn number_of(digits: &str) -> Result<usize, LengthFault>
    requires { lengths.is_number digits.now ≡ true }
    ensures { result ≡ lengths.limited (digits_value 10 digits.now) }
{
    match digits.parse::<usize>() {
        Ok(number) if number <= MOST_BODY_BYTES => Ok(number),
        Ok(_) => Err(LengthFault::TooLarge),
        Err(_) => Err(LengthFault::TooLarge),
    }
}

fn told_length(value: &[u8]) -> Result<usize, LengthFault>
    ensures { result ≡ lengths.told_length value.now }
{
    if !is_number(value) {
        return Err(LengthFault::Wrong);
    }
    number_of(as_text(value))
}

/// How many bytes the body has, by the lines of `Transfer-Encoding` and of `Content-Length`: at most 4,194,304.
pub fn body_length(coding: Lines<'_>, length: Lines<'_>) -> Result<usize, LengthFault>
    ensures value { result ≡ lengths.body_length (one_of coding.entry) (one_of length.entry) }
    ensures little { IfOk result (λ count. count ≤ MOST_BODY_BYTES) }
{
    match coding {
        Lines::Absent => {}
        Lines::One(_) => return Err(LengthFault::Untold),
        Lines::Many => return Err(LengthFault::Untold),
    }
    match length {
        Lines::Absent => Err(LengthFault::Untold),
        Lines::One(value) => told_length(value),
        Lines::Many => Err(LengthFault::Wrong),
    }
}
