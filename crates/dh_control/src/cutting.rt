//! An answer, as its client reads it.

ghost use Rattle.std.specs.Prelude.{◌≡◌, ◌≤◌, length};
ghost use Rattle.std.specs.Option.{option_map};
ghost use Rattle.dh_control.specs.Cutting as spec;

use crate::message::behind;

/// An answer: what was printed, and how it ended.
#[derive(Clone, Copy)]
pub struct AnswerParts<'a> {
    pub printed: &'a [u8],
    /// The end: a number, with the word of a reason behind `1`, and the name of a fault behind `3`.
    pub end: &'a [u8],
}

/// The lines of some bytes that have their ends: all but the last line where that has none.
pub fn whole_lines(bytes: &[u8]) -> &[u8]
    ensures lines { result.now ≡ spec.whole_lines bytes.now }
    ensures within { length result.now ≤ length bytes.now }
{
    let mut lines = bytes;
    while let Some((last, front)) = lines.split_last() {
        if *last == b'\n' {
            return lines;
        }
        lines = front;
    }
    lines
}

/// Cuts an answer into its parts. None where its last line is not whole, or tells no end.
pub fn cut(answer: &[u8]) -> Option<AnswerParts<'_>>
    ensures { option_map (λ parts. (parts.printed.now, parts.end.now)) result
        ≡ spec.cut answer.now }
{
    let (last, front) = answer.split_last()?;
    if *last != b'\n' {
        return None;
    }
    let printed = whole_lines(front);
    let end = behind("end ", &front[printed.len()..])?;
    Some(AnswerParts { printed, end })
}
