//! The head of a request.

ghost use Rattle.std.specs.Prelude.{length, IfNone, IfSome};
ghost use Rattle.httparse.specs.Grammar.{RequestHead};
ghost use Rattle.httparse.specs.Spans.{IsRequestWithin, IsRequestAt};
ghost use Rattle.dh_requests.specs.HeadEnd.{IsHeadText};
ghost use Rattle.dh_requests.specs.Head.{IsReadAs, HasMoreFields};

use crate::fields::{Lines, lines_named};
use httparse::Status;
use httparse::spans::{EMPTY_HEADER_SPAN, HeaderSpan, RequestSpans, parse_request};

/// The parts of a head that count: its method, its target, and the values of the lines with these names.
#[derive(Drop)]
pub struct Head<'b> {
    pub method: &'b [u8],
    pub target: &'b [u8],
    /// The `Host` lines.
    pub host: Lines<'b>,
    /// The `Docs-Pass` lines.
    pub pass: Lines<'b>,
    /// The `Docs-Key` lines.
    pub key: Lines<'b>,
    /// The `Content-Length` lines.
    pub length: Lines<'b>,
    /// The `Transfer-Encoding` lines.
    pub coding: Lines<'b>,
}

/// The head that the text begins with, of no more fields than there is room for.
fn parse_head(text: &[u8], headers: &mut [HeaderSpan]) -> Option<RequestSpans>
    ensures some { IfSome result (λ spans.
        (head : RequestHead) × IsRequestAt text.now headers.new spans head) }
    ensures within { IfSome result (IsRequestWithin text.now headers.new) }
    ensures none { IfNone result (HasMoreFields text.now (length headers.old)) }
{
    match parse_request(text, headers) {
        Ok(Status::Complete(spans)) => Some(spans),
        _ => None,
    }
}

/// The head that the text is, or none.
pub fn head_of<'b>(text: &'b [u8]) -> Option<Head<'b>>
    requires { IsHeadText text.now }
    ensures { IsReadAs text.now result }
{
    let mut headers = [EMPTY_HEADER_SPAN; 64];
    let Some(spans) = parse_head(text, &mut headers) else {
        return None;
    };
    let fields = &headers[..spans.headers];
    Some(Head {
        method: spans.method.of(text),
        target: spans.path.of(text),
        host: lines_named(text, fields, b"Host"),
        pass: lines_named(text, fields, b"Docs-Pass"),
        key: lines_named(text, fields, b"Docs-Key"),
        length: lines_named(text, fields, b"Content-Length"),
        coding: lines_named(text, fields, b"Transfer-Encoding"),
    })
}
