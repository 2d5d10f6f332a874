//! Writing what may be lost.

ghost use Rattle.dh_server.specs.Telling.{WritesUnlessBroken};

use dh_ports::{Sink, put_all};

/// Writes bytes, unless the sink has failed. What the sink does not take is lost: there is nowhere else to tell it.
pub fn put_or_lose<W: Sink>(sink: &mut W, bytes: &[u8])
    ensures { WritesUnlessBroken W.broken W.held sink.old sink.new bytes.now }
{
    if !sink.failed() {
        let _ = put_all(sink, bytes);
    }
}
