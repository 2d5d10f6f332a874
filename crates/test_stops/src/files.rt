//! Two files in memory, each of which may fail from one of its calls on.

ghost use Rattle.std.specs.Prelude.{◌≡◌, false, IfOk};

use sqlite::{Connection, FileStore, Files, Options};
use sqlite_disk::{Crash, Disk, Fuse, Memory};
use std::alloc::{AllocError, Global};
use std::io;

/// A file that answers so many calls, and fails each one after.
type Fused = Fuse<Memory>;

/// A store over two such files.
pub type Store = FileStore<Fused>;

/// What the log and the file hold.
#[derive(Drop)]
pub struct Contents {
    log: Vec<u8>,
    db: Vec<u8>,
}

/// How many calls each of the two answers.
#[derive(Clone, Copy)]
pub struct Calls {
    pub log: u64,
    pub db: u64,
}

/// Neither ever fails.
pub const ALL: Calls = Calls {
    log: u64::MAX,
    db: u64::MAX,
};

/// What a run leaves.
#[derive(Drop)]
pub struct Left {
    /// Where the program was killed at the end.
    pub killed: Contents,
    /// Where the machine stopped, and what was not synced is lost.
    pub lost: Contents,
    /// Whether the two are the same.
    pub synced: bool,
    /// Whether one more call of either fails.
    pub stopped: bool,
}

/// Nothing in either.
pub fn nothing(alloc: Global) -> Contents {
    Contents {
        log: Vec::new(alloc),
        db: Vec::new(alloc),
    }
}

/// A file that holds these bytes for good.
fn file(alloc: Global, bytes: &[u8], calls: u64) -> io::Result<Fused> {
    let mut memory = Memory::new(alloc);
    memory.write_at(0, bytes)?;
    memory.sync()?;
    Ok(Fuse::new(memory, calls))
}

fn copy(alloc: Global, bytes: &[u8]) -> Result<Vec<u8>, AllocError> {
    let mut copied = Vec::new(alloc);
    copied.extend_from_slice(bytes)?;
    Ok(copied)
}

fn held(alloc: Global, files: &Files<Fused>) -> Result<Contents, AllocError> {
    Ok(Contents {
        log: copy(alloc, files.log.inner().bytes())?,
        db: copy(alloc, files.db.inner().bytes())?,
    })
}

fn has_stopped(file: &mut Fused) -> bool {
    !file.may_be_used() || file.len().is_err()
}

fn left_in(alloc: Global, files: Files<Fused>) -> Result<Left, AllocError> {
    let mut files = files;
    let killed = held(alloc, &files)?;
    let stopped = has_stopped(&mut files.log) || has_stopped(&mut files.db);
    files.log.crash();
    files.db.crash();
    let lost = held(alloc, &files)?;
    let synced = killed.log == lost.log && killed.db == lost.db;
    Ok(Left {
        killed,
        lost,
        synced,
        stopped,
    })
}

/// Opens files with these contents, as the program opens its own; or tells what a failed opening leaves.
pub fn connect(
    alloc: Global,
    contents: &Contents,
    calls: Calls,
) -> io::Result<Result<Connection<Store>, Left>>
    ensures { IfOk result (λ opened. IfOk opened (λ conn. conn.in_transaction ≡ false)) }
{
    let log = file(alloc, contents.log.as_slice(), calls.log)?;
    let db = file(alloc, contents.db.as_slice(), calls.db)?;
    if !log.may_be_used() || !db.may_be_used() {
        return Err(io::ErrorKind::Other.into());
    }
    match Connection::open_files_with(alloc, Files { log, db }, Options::new(1), true) {
        Ok(conn) => Ok(Ok(conn)),
        Err((_error, rest)) => Ok(Err(left_in(alloc, rest.into_files())?)),
    }
}

/// What the files hold that a connection gives back. Where it is closed before, what the log holds is copied
/// into the file.
pub fn end(alloc: Global, conn: Connection<Store>, closes: bool) -> Result<Left, AllocError> {
    if !closes {
        return left_in(alloc, conn.into_store().close());
    }
    match conn.close_files() {
        Ok(files) => left_in(alloc, files),
        Err((_error, store)) => left_in(alloc, store.close()),
    }
}
