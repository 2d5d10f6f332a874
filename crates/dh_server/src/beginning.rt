//! The beginning of what a source gives.

ghost use Rattle.std.specs.Prelude.{◌≡◌, ◌≤◌, length, not, position, vec_len};
ghost use Rattle.dh_log.specs.Heads.{up_to};
ghost use Rattle.dh_server.specs.Lines as spec;
ghost use Rattle.dh_requests.specs.declared.head_end.TheConstants.{MOST_HEAD_BYTES};

use dh_ports::{Failed, Source};
use dh_requests::MOST_HEAD_BYTES;
use std::alloc::Global;

/// The most bytes of a line that is told.
pub const MOST_LINE_TOLD: usize = 2048;

/// The most bytes of a host that is told.
pub const MOST_HOST_TOLD: usize = 255;

/// The first bytes that came, at most 16,384, and how many came in all. Where memory is out, fewer are kept.
#[derive(Drop)]
pub struct Beginning {
    bytes: Vec<u8>,
    /// How many bytes came; the count stays at 2^64 - 1.
    count: u64,
    ghost few: { vec_len bytes ≤ MOST_HEAD_BYTES },
}

/// Where the first line ends.
fn line_end(bytes: &[u8]) -> Option<usize>
    ensures { result ≡ position spec.ends_line bytes.now }
{
    bytes.iter().position(|b| matches!(*b, b'\r' | b'\n'))
}

/// Where something begins that is no end of a line.
fn text_start(bytes: &[u8]) -> Option<usize>
    ensures { result ≡ position (λ byte. not (spec.ends_line byte)) bytes.now }
{
    bytes.iter().position(|b| !matches!(*b, b'\r' | b'\n'))
}

/// What stands behind the empty lines that may come before a request.
fn begun(bytes: &[u8]) -> &[u8]
    ensures { result.now ≡ spec.begun bytes.now }
{
    match text_start(bytes) {
        Some(at) => &bytes[at..],
        None => bytes,
    }
}

/// What stands before the end of the first line.
fn line_of(bytes: &[u8]) -> &[u8]
    ensures { result.now ≡ up_to (position spec.ends_line bytes.now) bytes.now }
{
    match line_end(bytes) {
        Some(at) => &bytes[..at],
        None => bytes,
    }
}

/// What stands behind this name, in any case, where the line begins with it.
fn behind_name<'b>(line: &'b [u8], name: &[u8]) -> Option<&'b [u8]> {
    if line.len() < name.len() {
        return None;
    }
    let (front, behind) = line.split_at(name.len());
    if front.eq_ignore_ascii_case(name) {
        Some(behind)
    } else {
        None
    }
}

/// The value of a line of a head, where it has the name.
fn value_of<'b>(line: &'b [u8], name: &[u8]) -> Option<&'b [u8]> {
    let value = behind_name(line, name)?.strip_prefix(b":")?;
    Some(value.trim_ascii())
}

/// Whether nothing stands on a line.
fn is_blank(line: &[u8]) -> bool {
    matches!(line, b"\n" | b"\r\n")
}

/// How often a head has the lines by which it is judged.
#[derive(Clone, Copy)]
struct HeadLines {
    /// How many lines the head has.
    lines: u32,
    hosts: u32,
    passes: u32,
    keys: u32,
    lengths: u32,
}

impl HeadLines {
    /// Counts one more line.
    fn count(&mut self, line: &[u8]) {
        self.lines = self.lines.saturating_add(1);
        if value_of(line, b"Host").is_some() {
            self.hosts = self.hosts.saturating_add(1);
        }
        if value_of(line, b"Docs-Pass").is_some() {
            self.passes = self.passes.saturating_add(1);
        }
        if value_of(line, b"Docs-Key").is_some() {
            self.keys = self.keys.saturating_add(1);
        }
        if value_of(line, b"Content-Length").is_some() {
            self.lengths = self.lengths.saturating_add(1);
        }
    }
}

/// Counts the lines of a head; none where the head does not end in these bytes.
fn head_lines(bytes: &[u8]) -> Option<HeadLines> {
    let mut head = HeadLines {
        lines: 0,
        hosts: 0,
        passes: 0,
        keys: 0,
        lengths: 0,
    };
    for line in bytes.split_inclusive(|b| *b == b'\n') {
        if !is_blank(line) {
            head.count(line);
        } else if head.lines > 0 {
            return Some(head);
        }
    }
    None
}

/// How many bytes of a body a line of a head announces; none where the line does not say how many.
fn announced(line: &[u8]) -> Option<u64> {
    if behind_name(line, b"Transfer-Encoding").is_some() {
        return None;
    }
    match behind_name(line, b"Content-Length") {
        Some(value) => {
            let number = value.strip_prefix(b":")?.trim_ascii();
            str::from_utf8(number).ok()?.parse::<u64>().ok()
        }
        None => Some(0),
    }
}

/// How many bytes a request has that begins with these: the empty lines before it, its head, and the body that the head announces. None where the head does
/// not end in these bytes, or does not say how long the body is.
fn request_size(bytes: &[u8]) -> Option<u64> {
    let mut size = (bytes.len() - begun(bytes).len()) as u64;
    for line in begun(bytes).split_inclusive(|b| *b == b'\n') {
        let count = (line.len() as u64).saturating_add(announced(line)?);
        size = size.saturating_add(count);
        if is_blank(line) {
            return Some(size);
        }
    }
    None
}

impl Beginning {
    /// Starts with no bytes.
    pub fn new(alloc: Global) -> Beginning {
        Beginning {
            bytes: Vec::new(alloc),
            count: 0,
        }
    }

    /// Keeps the bytes that came next, as far as there is room.
    fn keep(&mut self, came: &[u8]) {
        if self.bytes.len() as u64 == self.count {
            let room = MOST_HEAD_BYTES.saturating_sub(self.bytes.len());
            let _ = self.bytes.extend_from_slice(&came[..came.len().min(room)]);
        }
        self.count = self.count.saturating_add(came.len() as u64);
    }

    /// The first line that is not empty, without its end, as far as it came, and at most 2,048 bytes of it.
    pub fn first_line(&self) -> &[u8]
        ensures line { result.now ≡ spec.first_line self.now.bytes.items }
        ensures few { length result.now ≤ MOST_LINE_TOLD }
    {
        let line = line_of(begun(self.bytes.as_slice()));
        &line[..MOST_LINE_TOLD.min(line.len())]
    }

    /// The value of the first `Host` line of the head, as far as the head came, and at most 255 bytes of it; empty where there
    /// is no such line.
    pub fn host(&self) -> &[u8]
        ensures { length result.now ≤ MOST_HOST_TOLD }
    {
        for line in begun(self.bytes.as_slice()).split_inclusive(|b| *b == b'\n') {
            if let Some(value) = value_of(line, b"Host") {
                return &value[..MOST_HOST_TOLD.min(value.len())];
            }
            if is_blank(line) {
                return &[];
            }
        }
        &[]
    }

    /// Why what came is a bad request, where it is one: `NoEnd`, its head has no end; `NoHost`, the head has no `Host` line;
    /// `TwoLines`, a line stands twice that may stand once; `ShortBody`, the body ends before it should; and else `Form`.
    pub fn bad_part(&self) -> &'static str {
        let is_post = self.first_line().starts_with(b"POST ");
        let Some(head) = head_lines(self.bytes.as_slice()) else {
            return "NoEnd";
        };
        if head.hosts == 0 {
            return "NoHost";
        }
        if head.hosts > 1 || head.passes > 1 || head.keys > 1 || (is_post && head.lengths > 1) {
            return "TwoLines";
        }
        match request_size(self.bytes.as_slice()) {
            Some(size) if is_post && size > self.count => "ShortBody",
            _ => "Form",
        }
    }

    /// Whether exactly one request came: its head, the body that the head announces, and nothing behind it. Answers false where
    /// there is no head that says how long its request is.
    pub fn is_whole(&self) -> bool {
        request_size(self.bytes.as_slice()) == Some(self.count)
    }
}

/// A source, and the beginning of what came from it.
#[derive(Drop)]
pub struct Heard<R> {
    inner: R,
    beginning: Beginning,
}

impl<R> Heard<R> {
    /// Makes a source of which nothing was heard yet.
    pub fn new(alloc: Global, inner: R) -> Heard<R>
        ensures { result.inner ≡ inner }
    {
        Heard {
            inner,
            beginning: Beginning::new(alloc),
        }
    }

    /// What came so far.
    pub fn beginning(&self) -> &Beginning
        ensures { result.now ≡ self.now.beginning }
    {
        &self.beginning
    }
}

impl<R: Source> Source for Heard<R> {
    ghost left = { λ heard. R.left heard.inner };

    ghost broken = { λ heard. R.broken heard.inner };

    ghost fills = { λ heard. R.fills heard.inner };

    fn fill(&mut self, room: &mut [u8]) -> Result<usize, Failed> {
        match self.inner.fill(room) {
            Ok(count) => {
                self.beginning.keep(&room[..count]);
                Ok(count)
            }
            Err(fault) => Err(fault),
        }
    }

    fn failed(&self) -> bool {
        self.inner.failed()
    }
}
