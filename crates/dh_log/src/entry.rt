//! What a line tells, and its text.

ghost use Rattle.std.specs.Prelude.{◌≡◌, ◌++◌, codes, IfOk, OnOk};
ghost use Rattle.std.specs.Fmt.{decimal};
ghost use Rattle.dh_log.specs.Lines as spec;

use dh_texts::encode_path;
use std::alloc::{AllocError, Global};

/// How grave it is what a line tells, as syslog and the journal count it.
#[derive(Clone, Copy, Debug, PartialEq, Eq)]
pub enum Level {
    /// The server has a fault.
    Error,
    /// Something went wrong with one connection, or lines were lost.
    Warning,
    Info,
}

/// A word of a line.
#[derive(Clone, Copy)]
pub enum Word<'a> {
    /// A text; empty where there is nothing to say.
    Text(&'a str),
    Number(u64),
}

/// What a line is about. Each text may be empty.
#[derive(Clone, Copy)]
pub struct About<'a> {
    /// The method of a request, or what else it was.
    pub kind: &'a str,
    /// The path of a request, the word of an order, or the file of a server.
    pub name: &'a str,
    pub host: &'a str,
    /// The slug of a version, or the name of a branch or tag.
    pub slug: &'a str,
}

/// What a server measured.
#[derive(Clone, Copy)]
pub struct Measured {
    /// When it came, in seconds since 1970.
    pub moment: u64,
    /// How many bytes answered it.
    pub bytes: u64,
    /// How long that took, in microseconds.
    pub micros: u64,
}

/// What a line tells. It has no place for a key, a pass or a body.
#[derive(Clone, Copy)]
pub struct Entry<'a> {
    pub level: Level,
    /// What came of it.
    pub outcome: Word<'a>,
    pub about: About<'a>,
    pub measured: Measured,
    /// Why it came so, where there is something to say.
    pub cause: Word<'a>,
}

/// What stands in front of a line of a level.
fn mark_of(has_levels: bool, level: Level) -> &'static str
    ensures { result.now ≡ spec.mark_of has_levels level }
{
    match level {
        Level::Error if has_levels => "<3>",
        Level::Warning if has_levels => "<4>",
        Level::Info if has_levels => "<6>",
        _ => "",
    }
}

fn put(out: &mut Vec<u8>, text: &str) -> Result<(), AllocError>
    ensures { OnOk result (out.new.items ≡ out.old.items ++ text.now) }
{
    out.extend_from_slice(text.as_bytes())
}

/// Puts a text as a word.
fn put_shown(alloc: Global, out: &mut Vec<u8>, text: &str) -> Result<(), AllocError>
    ensures { OnOk result (out.new.items ≡ out.old.items ++ spec.shown text.now) }
{
    if text.is_empty() {
        put(out, "-")
    } else {
        put(out, encode_path(alloc, text)?.as_str())
    }
}

/// Puts a space and a text as a word.
fn put_word(alloc: Global, out: &mut Vec<u8>, text: &str) -> Result<(), AllocError>
    ensures { OnOk result (out.new.items
        ≡ out.old.items ++ codes " " ++ spec.shown text.now) }
{
    put(out, " ")?;
    put_shown(alloc, out, text)
}

/// Puts a space and a number.
fn put_number(alloc: Global, out: &mut Vec<u8>, number: u64) -> Result<(), AllocError>
    ensures { OnOk result (out.new.items ≡ out.old.items ++ codes " " ++ decimal number) }
{
    put(out, " ")?;
    put(out, format!(in alloc; "{number}")?.as_str())
}

/// Puts a word.
fn put_told(alloc: Global, out: &mut Vec<u8>, word: Word<'_>) -> Result<(), AllocError>
    ensures { OnOk result (out.new.items ≡ out.old.items ++ spec.shown_word word.entry) }
{
    match word {
        Word::Text(text) => put_shown(alloc, out, text),
        Word::Number(number) => put(out, format!(in alloc; "{number}")?.as_str()),
    }
}

/// Puts what came of it, what it was, and of what.
#[tactic(auto, unfolding(crate::specs::Lines::deed_text))]
fn put_deed(
    alloc: Global,
    out: &mut Vec<u8>,
    outcome: Word<'_>,
    about: &About<'_>,
) -> Result<(), AllocError>
    ensures { OnOk result (out.new.items
        ≡ out.old.items ++ spec.deed_text outcome.entry about.now) }
{
    put_told(alloc, out, outcome)?;
    put_word(alloc, out, about.kind)?;
    put_word(alloc, out, about.name)
}

/// Puts how much it was, under which host, and when.
#[tactic(auto, unfolding(crate::specs::Lines::measured_text))]
fn put_measured(
    alloc: Global,
    out: &mut Vec<u8>,
    host: &str,
    measured: Measured,
) -> Result<(), AllocError>
    ensures { OnOk result (out.new.items
        ≡ out.old.items ++ spec.measured_text host.now measured) }
{
    put_number(alloc, out, measured.bytes)?;
    put_number(alloc, out, measured.micros)?;
    put_word(alloc, out, host)?;
    put_number(alloc, out, measured.moment)
}

/// Puts why it came so, and of which version.
#[tactic(auto, unfolding(crate::specs::Lines::cause_text))]
fn put_cause(
    alloc: Global,
    out: &mut Vec<u8>,
    cause: Word<'_>,
    slug: &str,
) -> Result<(), AllocError>
    ensures { OnOk result (out.new.items
        ≡ out.old.items ++ spec.cause_text cause.entry slug.now) }
{
    put(out, " ")?;
    put_told(alloc, out, cause)?;
    put_word(alloc, out, slug)
}

/// Appends the line of an entry, with its level in front where lines have levels.
pub fn put_line(
    alloc: Global,
    out: &mut Vec<u8>,
    has_levels: bool,
    entry: &Entry<'_>,
) -> Result<(), AllocError>
    ensures { OnOk result (out.new.items
        ≡ out.old.items ++ spec.line_of has_levels entry.now) }
{
    put(out, mark_of(has_levels, entry.level))?;
    put_deed(alloc, out, entry.outcome, &entry.about)?;
    put_measured(alloc, out, entry.about.host, entry.measured)?;
    put_cause(alloc, out, entry.cause, entry.about.slug)?;
    put(out, "\n")
}

/// Appends the line that tells how many lines were lost.
pub fn put_lost(
    alloc: Global,
    out: &mut Vec<u8>,
    has_levels: bool,
    moment: u64,
    lost: u64,
) -> Result<(), AllocError>
    ensures { OnOk result (out.new.items
        ≡ out.old.items ++ spec.lost_line has_levels moment lost) }
{
    put(out, mark_of(has_levels, Level::Warning))?;
    put(out, "Lost LOG - 0 0 -")?;
    put_number(alloc, out, moment)?;
    put_number(alloc, out, lost)?;
    put(out, " -\n")
}
