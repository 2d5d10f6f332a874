//! All rows of our tables.

ghost use Rattle.std.specs.Prelude.{◌≡◌, false};

use crate::lines::desk_over;
use sqlite::{Alter, Connection};
use std::alloc::{AllocError, Global};

/// Each of our tables, in the order of its key.
const TABLES: [&str; 13] = [
    "SELECT * FROM meta ORDER BY schema",
    "SELECT * FROM rule ORDER BY host, place",
    "SELECT * FROM redirect ORDER BY host, place",
    "SELECT * FROM project ORDER BY host",
    "SELECT * FROM lang ORDER BY host, lang",
    "SELECT * FROM version ORDER BY host, slug",
    "SELECT * FROM page ORDER BY host, slug, lang, path",
    "SELECT * FROM used ORDER BY host, slug, op, retry",
    "SELECT * FROM pick ORDER BY host, name",
    "SELECT * FROM pass ORDER BY host, pass",
    "SELECT * FROM holds ORDER BY host, pass, slug",
    "SELECT * FROM alias ORDER BY host, class, name",
    "SELECT * FROM route ORDER BY host, seg, place",
];

/// Adds the rows of a query as text, or why there are none.
fn add_rows<S: Alter>(
    alloc: Global,
    out: &mut String,
    conn: &mut Connection<S>,
    sql: &str,
) -> Result<(), AllocError> {
    let rows = conn.query_all(sql, &[]);
    out.push_str(format!(in alloc; "{rows:?}\n")?.as_str())
}

/// What an opening says of the tables of a connection, and all their rows, as it leaves them, as text.
pub fn rows_of<S: Alter + Drop>(
    alloc: Global,
    conn: Connection<S>,
) -> Result<(String, Connection<S>), AllocError>
    requires { conn.in_transaction ≡ false }
{
    let (said, mut conn) = match desk_over(alloc, conn) {
        Ok(desk) => (String::from_str(alloc, "ours\n")?, desk.into_conn()),
        Err((fault, conn)) => (format!(in alloc; "{fault:?}\n")?, conn),
    };
    let mut out = said;
    for sql in TABLES {
        add_rows(alloc, &mut out, &mut conn, sql)?;
    }
    Ok((out, conn))
}
