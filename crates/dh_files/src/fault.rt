//! What is wrong with a file.

ghost use Rattle.std.specs.Prelude.{◌≡◌};
ghost use Rattle.dh_files.specs.Faults.{file_fault_name, file_fault, fault_of_error};

use dh_opening::TablesFault;
use dh_ports::Fault;
use sqlite::{Error, ErrorCode};
use std::io;

/// What is wrong with a file.
#[derive(Clone, Copy, Debug, PartialEq, Eq)]
pub enum FileFault {
    /// There is no file of this name.
    Missing,
    /// The file is empty.
    Empty,
    /// The path is that of a folder.
    Folder,
    /// The file may not be read or written.
    Forbidden,
    /// The path is that of a device, or of a file that the system does not open.
    Unopened,
    /// The file is no SQLite database.
    NoDatabase,
    /// A page of the file is not what was written, or was written without sums.
    Damaged,
    /// By the file's header another SQLite wrote to it, which knows nothing of its sums.
    Changed,
    /// The file has more than one name.
    Linked,
    /// The file's log has more than one name, or is no file.
    LinkedLog,
    /// A rollback journal stands beside the file.
    Journal,
    /// Another program has the file open.
    Busy,
    /// The file is to be made, and there is something in it.
    Taken,
    /// The file's tables are not ours, or their rows break a constraint.
    NotOurs,
    /// The file's tables are of an earlier schema.
    OldSchema,
    /// The disk is full.
    Full,
    /// The disk failed.
    Failed,
    /// Out of memory.
    Memory,
}

impl FileFault {
    /// The name that programs read: `NotOurs`, `OldSchema`, `Store` or `Memory`.
    pub fn name(self) -> &'static str
        ensures { result.now ≡ file_fault_name self }
    {
        match self {
            FileFault::Taken | FileFault::NotOurs => "NotOurs",
            FileFault::OldSchema => "OldSchema",
            FileFault::Memory => "Memory",
            FileFault::Missing
            | FileFault::Empty
            | FileFault::Folder
            | FileFault::Forbidden
            | FileFault::Unopened
            | FileFault::NoDatabase
            | FileFault::Damaged
            | FileFault::Changed
            | FileFault::Linked
            | FileFault::LinkedLog
            | FileFault::Journal
            | FileFault::Busy
            | FileFault::Full
            | FileFault::Failed => "Store",
        }
    }

    /// What is wrong, as the end of a sentence that begins with the file's name.
    pub fn cause(self) -> &'static str {
        match self {
            FileFault::Missing => "there is no such file; docs_host init FILE makes one",
            FileFault::Empty => "nothing is in it; docs_host init FILE makes its tables",
            FileFault::Folder => "it is a folder",
            FileFault::Forbidden => "it may not be read and written by this user",
            FileFault::Unopened => "the system does not open it",
            FileFault::NoDatabase => {
                "it does not begin as an SQLite database: it is another file, or its first bytes are damaged"
            }
            FileFault::Damaged => {
                "it is damaged, or a sqlite3 that knows nothing of the sums of its pages has written to it"
            }
            FileFault::Changed => {
                "by its header another SQLite wrote to it, which keeps no sums of its pages"
            }
            FileFault::Linked =>
                "it has a second name (a hard link), by which it would have a second log",
            FileFault::LinkedLog => {
                "its log, whose name ends in -wal, is a link, has a second name, or is no file"
            }
            FileFault::Journal => {
                "a rollback journal of SQLite, whose name ends in -journal, stands beside it"
            }
            FileFault::Busy => "another program has it open",
            FileFault::Taken => "there is something in it already, which was left as it is",
            FileFault::NotOurs => {
                "its tables are not those of docs_host, or a row breaks a constraint"
            }
            FileFault::OldSchema => {
                "an earlier docs_host made it; docs_host migrate FILE brings it to this one's schema"
            }
            FileFault::Full => "the disk is full",
            FileFault::Failed => "the disk failed",
            FileFault::Memory => "memory is out",
        }
    }
}

impl From<Error> for FileFault {
    ghost from_gives = { λ error file. file ≡ fault_of_error error };

    fn from(error: Error) -> FileFault {
        match error {
            Error::SqliteFailure(ErrorCode::NotADatabase) => FileFault::NoDatabase,
            Error::SqliteFailure(ErrorCode::DatabaseCorrupt) => FileFault::Damaged,
            Error::SqliteFailure(ErrorCode::DatabaseBusy) => FileFault::Busy,
            Error::SqliteFailure(ErrorCode::CannotOpen) => FileFault::Unopened,
            Error::SqliteFailure(ErrorCode::DiskFull) => FileFault::Full,
            Error::SqliteFailure(ErrorCode::OutOfMemory) => FileFault::Memory,
            _ => FileFault::Failed,
        }
    }
}

impl From<TablesFault> for FileFault {
    ghost from_gives = { λ fault file. file ≡ file_fault fault };

    fn from(fault: TablesFault) -> FileFault {
        match fault {
            TablesFault::NotOurs => FileFault::NotOurs,
            TablesFault::OldSchema => FileFault::OldSchema,
            TablesFault::Failed(Fault::Store) => FileFault::Failed,
            TablesFault::Failed(Fault::Memory) => FileFault::Memory,
        }
    }
}

impl From<io::Error> for FileFault {
    fn from(error: io::Error) -> FileFault {
        match error.kind() {
            io::ErrorKind::NotFound => FileFault::Missing,
            io::ErrorKind::PermissionDenied => FileFault::Forbidden,
            io::ErrorKind::OutOfMemory => FileFault::Memory,
            _ => FileFault::Unopened,
        }
    }
}
