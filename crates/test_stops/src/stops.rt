//! A line stopped at each call of each file, and what stands there afterwards.

ghost use Rattle.std.specs.Prelude.{◌≡◌, ◌⊎◌, true, false, string_bytes};

use crate::files::{ALL, Calls, Contents, Left, connect, end};
use crate::lines::{Told, UNOPENED, is_fault, no_beginning, tell};
use std::alloc::Global;
use std::io;

/// The most calls of a file at which a line is stopped.
const MOST: u64 = 100_000;

/// What a line tells where nothing stops, and the rows before it and after it.
#[derive(Drop)]
struct Whole<'a> {
    line: &'a str,
    said: String,
    before: String,
    after: String,
}

/// Which rows the stops of a line left.
#[derive(Clone, Copy)]
struct Seen {
    before: bool,
    after: bool,
    wrong: bool,
}

/// Opens files with these contents, runs a line, and closes them or leaves them as they are.
fn run(
    alloc: Global,
    contents: &Contents,
    calls: Calls,
    line: &str,
    closes: bool,
) -> io::Result<(Told, Left)> {
    match connect(alloc, contents, calls)? {
        Ok(conn) => {
            let (told, conn) = tell(alloc, conn, line)?;
            Ok((told, end(alloc, conn, closes)?))
        }
        Err(left) => Ok((no_beginning(alloc, UNOPENED)?, left)),
    }
}

/// The rows of files with these contents.
fn world(alloc: Global, contents: &Contents) -> io::Result<String> {
    let (told, _left) = run(alloc, contents, ALL, "rows", true)?;
    Ok(told.said)
}

/// Whether the line, run anew over what a stop left, tells what it tells and leaves the rows after it.
fn goes_on(alloc: Global, left: &Contents, whole: &Whole<'_>) -> io::Result<bool> {
    let (told, left) = run(alloc, left, ALL, whole.line, true)?;
    let now = world(alloc, &left.killed)?;
    Ok(told.said == whole.said && now == whole.after)
}

/// Whether rows may stand after a run: after an answer those after the line, where it did not begin those
/// before it, else either.
fn may_stand(now: &str, whole: &Whole<'_>, told: &Told) -> bool
    ensures answered { result ≡ true → string_bytes told.now.said ≡ string_bytes whole.now.said
        → now.now ≡ string_bytes whole.now.after }
    ensures unbegun { result ≡ true → told.now.began ≡ false
        → (now.now ≡ string_bytes whole.now.before)
        ⊎ (string_bytes told.now.said ≡ string_bytes whole.now.said) }
    ensures known { result ≡ true → (now.now ≡ string_bytes whole.now.before)
        ⊎ (now.now ≡ string_bytes whole.now.after) }
{
    let is_after = now == whole.after.as_str();
    if told.said == whole.said {
        return is_after;
    }
    is_fault(told.said.as_str()) && (now == whole.before.as_str() || told.began && is_after)
}

/// Judges what a run left.
fn judge(
    alloc: Global,
    left: &Contents,
    whole: &Whole<'_>,
    told: &Told,
    seen: &mut Seen,
) -> io::Result<bool> {
    let now = world(alloc, left)?;
    if now == whole.after {
        seen.after = true;
    }
    if now == whole.before {
        seen.before = true;
        if !goes_on(alloc, left, whole)? {
            return Ok(false);
        }
    }
    Ok(may_stand(now.as_str(), whole, told))
}

/// Stops a line at each call of a file, and gives how many there are.
fn sweep(
    rt: &HostRuntime,
    before: &Contents,
    whole: &Whole<'_>,
    is_log: bool,
    seen: &mut Seen,
) -> io::Result<u64> {
    for at in 0..MOST {
        let calls = if is_log {
            Calls { log: at, ..ALL }
        } else {
            Calls { db: at, ..ALL }
        };
        let (told, left) = run(rt.alloc(), before, calls, whole.line, true)?;
        let killed = judge(rt.alloc(), &left.killed, whole, &told, seen)?;
        let lost = if left.synced {
            killed
        } else {
            judge(rt.alloc(), &left.lost, whole, &told, seen)?
        };
        if !killed || !lost {
            seen.wrong = true;
            println!(rt;
                "wrong after {at} calls, killed {killed}, lost {lost}: {}",
                told.said
            )?;
        }
        if !left.stopped {
            return Ok(at);
        }
    }
    Err(io::ErrorKind::Other.into())
}

fn seen_text(seen: Seen, whole: &Whole<'_>) -> &'static str {
    if seen.wrong {
        "wrong"
    } else if whole.before == whole.after {
        "the same"
    } else if seen.before && seen.after {
        "before and after"
    } else {
        "not both"
    }
}

/// Runs a line, prints what it tells, and gives what it leaves, closed.
pub fn run_line(rt: &HostRuntime, before: Contents, line: &str) -> io::Result<Contents> {
    let (told, left) = run(rt.alloc(), &before, ALL, line, true)?;
    println!(rt; "{}", told.said)?;
    Ok(left.killed)
}

/// Stops a line at each call of the log and then of the file, prints what it tells where nothing stops and
/// which rows the stops left, and gives what it leaves where nothing stops, not closed.
pub fn stop_line(rt: &HostRuntime, before: Contents, line: &str) -> io::Result<Contents> {
    let alloc = rt.alloc();
    let (told, left) = run(alloc, &before, ALL, line, false)?;
    let whole = Whole {
        line,
        said: told.said,
        before: world(alloc, &before)?,
        after: world(alloc, &left.killed)?,
    };
    let mut seen = Seen {
        before: false,
        after: false,
        wrong: false,
    };
    let log = sweep(rt, &before, &whole, true, &mut seen)?;
    let db = sweep(rt, &before, &whole, false, &mut seen)?;
    eprintln!(rt; "{line}: {log} calls of the log, {db} of the file")?;
    println!(rt; "{}: {}", whole.said, seen_text(seen, &whole))?;
    Ok(left.killed)
}
