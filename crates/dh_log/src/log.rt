//! The writer of lines.

ghost use Rattle.std.specs.Prelude.{◌≡◌, ◌++◌, IfErr, IfOk, OnOk};
ghost use Rattle.std.specs.Io.KnownBytes.{Appends};
ghost use Rattle.dh_ports.specs.Ports.{PutsFirst};
ghost use Rattle.dh_log.specs.Logs.{TellsEntry, WritesOrCounts, missed_text, none_missed, one_more_missed, told_text};

use crate::entry::{Entry, put_line, put_lost};
use std::alloc::{AllocError, Global};
use std::io::Write;

/// What a log missed since the last line that was written whole.
#[derive(Clone, Copy, Debug, PartialEq, Eq)]
pub struct Missed {
    /// How many lines were lost; the count stays at 2^64 - 1.
    lost: u64,
    /// Whether a part of one of them was written.
    is_torn: bool,
}

/// Where lines are written to, and what was missed. A line for which there is no memory, or which the writer does not take whole, is
/// lost, and counted; the next line is tried anew, and says how many were lost before it. A log that is off writes nothing.
#[derive(Drop)]
pub struct Log<W> {
    writer: W,
    is_on: bool,
    /// Whether each line begins with its level, as the journal reads it.
    has_levels: bool,
    missed: Missed,
}

/// Writes all bytes, whatever became of others before. At `Err(n)` exactly the first n bytes went out.
fn write_whole<W: Write>(writer: &mut W, bytes: &[u8]) -> Result<(), usize>
    ensures ok { OnOk result
        (Appends (W.contents writer.old) (W.contents writer.new) bytes.now) }
    ensures err { IfErr result
        (PutsFirst (W.contents writer.old) (W.contents writer.new) bytes.now) }
{
    let mut at = 0;
    while at < bytes.len() {
        match writer.write(&bytes[at..]) {
            Ok(0) => return Err(at),
            Ok(count) => at += count,
            Err(_) => return Err(at),
        }
    }
    Ok(())
}

impl Missed {
    /// Nothing was missed.
    fn none() -> Missed
        ensures { result ≡ none_missed }
    {
        Missed {
            lost: 0,
            is_torn: false,
        }
    }

    /// One more line was lost, of which this many bytes were written.
    fn one_more(self, written: usize) -> Missed
        ensures { result ≡ one_more_missed self written }
    {
        Missed {
            lost: self.lost.saturating_add(1),
            is_torn: self.is_torn || written > 0,
        }
    }
}

impl<W: Write> Log<W> {
    /// Makes a log that has missed nothing.
    pub fn new(writer: W, is_on: bool, has_levels: bool) -> Log<W>
        ensures writer { result.writer ≡ writer }
        ensures on { result.is_on ≡ is_on }
        ensures levels { result.has_levels ≡ has_levels }
        ensures fresh { result.missed ≡ none_missed }
    {
        Log {
            writer,
            is_on,
            has_levels,
            missed: Missed::none(),
        }
    }

    /// Whether lines are written.
    pub fn is_on(&self) -> bool
        ensures { result ≡ self.now.is_on }
    {
        self.is_on
    }

    /// Puts what stands in front of a line: the end of one that was written in part, and how many were lost.
    fn put_missed(&self, alloc: Global, out: &mut Vec<u8>, moment: u64) -> Result<(), AllocError>
        ensures { OnOk result (out.new.items
            ≡ out.old.items ++ missed_text self.now.has_levels self.now.missed moment) }
    {
        if self.missed.is_torn {
            out.push(b'\n')?;
        }
        if self.missed.lost > 0 {
            put_lost(alloc, out, self.has_levels, moment, self.missed.lost)?;
        }
        Ok(())
    }

    /// Makes what is written for an entry.
    fn text_of(&self, alloc: Global, entry: &Entry<'_>) -> Result<Vec<u8>, AllocError>
        ensures { IfOk result (λ text. text.items
            ≡ told_text self.now.has_levels self.now.missed entry.now) }
    {
        let mut out = Vec::new(alloc);
        self.put_missed(alloc, &mut out, entry.measured.moment)?;
        put_line(alloc, &mut out, self.has_levels, entry)?;
        Ok(out)
    }

    /// Writes the line of an entry behind what was missed. At `Err(n)` exactly the first n bytes went out.
    fn write_entry(&mut self, alloc: Global, entry: &Entry<'_>) -> Result<(), usize>
        ensures ok { OnOk result (Appends (W.contents self.old.writer) (W.contents self.new.writer)
            (told_text self.old.has_levels self.old.missed entry.now)) }
        ensures err { IfErr result
            (PutsFirst (W.contents self.old.writer) (W.contents self.new.writer)
            (told_text self.old.has_levels self.old.missed entry.now)) }
        ensures missed { self.new.missed ≡ self.old.missed }
        ensures on { self.new.is_on ≡ self.old.is_on }
        ensures levels { self.new.has_levels ≡ self.old.has_levels }
    {
        match self.text_of(alloc, entry) {
            Ok(text) => write_whole(&mut self.writer, text.as_slice()),
            Err(_) => Err(0),
        }
    }

    /// Writes the line of an entry behind what was missed, or counts it as lost.
    fn write_or_count(&mut self, alloc: Global, entry: &Entry<'_>)
        ensures line { WritesOrCounts (W.contents self.old.writer) (W.contents self.new.writer)
            self.old.missed self.new.missed
            (told_text self.old.has_levels self.old.missed entry.now) }
        ensures on { self.new.is_on ≡ self.old.is_on }
        ensures levels { self.new.has_levels ≡ self.old.has_levels }
    {
        match self.write_entry(alloc, entry) {
            Ok(()) => self.missed = Missed::none(),
            Err(count) => self.missed = self.missed.one_more(count),
        }
    }

    /// Tells an entry: its line is written behind what was missed, or counted as lost.
    pub fn tell(&mut self, alloc: Global, entry: &Entry<'_>)
        ensures { TellsEntry W.contents self.old entry.now self.new }
    {
        if self.is_on {
            self.write_or_count(alloc, entry);
        }
    }
}
