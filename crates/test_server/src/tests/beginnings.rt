//! Whether just one request came.

use dh_ports::{Port, Source};
use dh_server::Heard;
use std::test::Fail;

/// Whether just one request came from a source that held the text, in pieces of seven bytes.
fn is_whole(rt: &HostRuntime, text: &str) -> bool {
    let mut heard = Heard::new(rt.alloc(), Port::new(text.as_bytes()));
    let mut room = [0u8; 7];
    for _ in 0..text.len() {
        let _ = heard.fill(&mut room);
    }
    heard.beginning().is_whole()
}

#[test]
fn one_request(rt: HostRuntime) -> Result<(), Fail> {
    for text in [
        "GET / HTTP/1.1\r\nHost: docs.test\r\n\r\n",
        "GET / HTTP/1.1\nHost: docs.test\n\n",
        "GET / HTTP/1.1\r\nHost: docs.test\r\nContent-Length: 0\r\n\r\n",
        "POST /_/push HTTP/1.1\r\nHost: docs.test\r\ncontent-length:3\r\n\r\n{}\n",
    ] {
        assert!(rt; is_whole(&rt, text), "{text}");
    }
    Ok(())
}

#[test]
fn less_than_one(rt: HostRuntime) -> Result<(), Fail> {
    for text in [
        "",
        "GET / HTTP/1.1\r\nHost: docs.test\r\n",
        "GET / HTTP/1.1\r\nHost: docs.test\r\nContent-Length: 3\r\n\r\n",
        "GET / HTTP/1.1\r\nHost: docs.test\r\nContent-Length: 3\r\n\r\nxx",
    ] {
        assert!(rt; !is_whole(&rt, text), "{text}");
    }
    Ok(())
}

#[test]
fn more_than_one(rt: HostRuntime) -> Result<(), Fail> {
    for text in [
        "GET / HTTP/1.1\r\nHost: docs.test\r\n\r\nx",
        "GET / HTTP/1.1\r\nHost: docs.test\r\n\r\nGET / HTTP/1.1\r\nHost: docs.test\r\n\r\n",
        "POST /_/push HTTP/1.1\r\nHost: docs.test\r\nContent-Length: 3\r\n\r\n{}\n\n",
    ] {
        assert!(rt; !is_whole(&rt, text), "{text}");
    }
    Ok(())
}

/// Where the head does not say by one number how long the body is.
#[test]
fn nobody_knows(rt: HostRuntime) -> Result<(), Fail> {
    for text in [
        "GET / HTTP/1.1\r\nHost: docs.test\r\nTransfer-Encoding: chunked\r\n\r\n",
        "GET / HTTP/1.1\r\nHost: docs.test\r\nContent-Length: three\r\n\r\n",
        "GET / HTTP/1.1\r\nHost: docs.test\r\nContent-Length : 0\r\n\r\n",
        "GET / HTTP/1.1\r\nHost: docs.test\r\nContent-Length: 18446744073709551615\r\n\r\n",
        "GET / HTTP/1.1\r\nHost: docs.test\r\nContent-Length: 18446744073709551616\r\n\r\n",
    ] {
        assert!(rt; !is_whole(&rt, text), "{text}");
    }
    Ok(())
}

/// Whether this host and this reason are told of a source that held the text, in pieces of seven bytes.
fn is_told(rt: &HostRuntime, text: &str, host: &str, reason: &str) -> bool {
    let mut heard = Heard::new(rt.alloc(), Port::new(text.as_bytes()));
    let mut room = [0u8; 7];
    for _ in 0..text.len() {
        let _ = heard.fill(&mut room);
    }
    let came = heard.beginning();
    came.host() == host.as_bytes() && came.bad_part() == reason
}

#[test]
fn a_400_has_its_reason(rt: HostRuntime) -> Result<(), Fail> {
    let cut = "GET / HTTP/1.1\r\nHost: docs.test\r\n";
    assert!(rt; is_told(&rt, cut, "docs.test", "NoEnd"));
    let nowhere = "GET / HTTP/1.1\r\nDocs-Pass: reader-7\r\n\r\nHost: docs.test\r\n";
    assert!(rt; is_told(&rt, nowhere, "", "NoHost"));
    let twice = "GET / HTTP/1.1\r\nhost:docs.test\r\nDocs-Pass: a\r\ndocs-pass: b\r\n\r\n";
    assert!(rt; is_told(&rt, twice, "docs.test", "TwoLines"));
    let short = "POST /_/push HTTP/1.1\nHost: docs.test\nContent-Length: 9\n\n{}";
    assert!(rt; is_told(&rt, short, "docs.test", "ShortBody"));
    let other = "POST /_/push HTTP/1.1\nHost: a b\nContent-Length: 2\n\n{}";
    assert!(rt; is_told(&rt, other, "a b", "Form"));
    Ok(())
}
