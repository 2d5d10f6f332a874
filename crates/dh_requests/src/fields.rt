//! The field lines of a head.

ghost use Rattle.std.specs.Prelude.{◌≡◌, length, map, All};
ghost use Rattle.std.specs.Str.{str_eq_ignore_ascii_case};
ghost use Rattle.httparse.specs.Spans.{IsHeaderWithin, header_bytes};
ghost use Rattle.dh_requests.specs.Fields.{values_named, at_most_one, one_of, one_more};

use httparse::spans::HeaderSpan;

/// The field lines with one name.
#[derive(Clone, Copy, Debug, Drop)]
pub enum Lines<'b> {
    Absent,
    /// One line, with this value.
    One(&'b [u8]),
    Many,
}

fn same_name(a: &[u8], b: &[u8]) -> bool
    ensures { result ≡ str_eq_ignore_ascii_case a.now b.now }
{
    a.eq_ignore_ascii_case(b)
}

fn with_line<'b>(found: Lines<'b>, value: &'b [u8]) -> Lines<'b>
    ensures { one_of result ≡ one_more (one_of found.entry) value.now }
{
    match found {
        Lines::Absent => Lines::One(value),
        Lines::One(_) => Lines::Many,
        Lines::Many => Lines::Many,
    }
}

/// The lines with this name, ignoring case.
pub fn lines_named<'b>(text: &'b [u8], headers: &[HeaderSpan], name: &[u8]) -> Lines<'b>
    requires { All (IsHeaderWithin (length text.now)) headers.now }
    ensures { one_of result
        ≡ at_most_one (values_named name.now (map (header_bytes text.now) headers.now)) }
{
    let mut found = Lines::Absent;
    for header in headers {
        if same_name(header.name.of(text), name) {
            found = with_line(found, header.value.of(text));
        }
    }
    found
}
