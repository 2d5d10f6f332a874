//! How many projects a database has, before its tables are judged.

ghost use Rattle.std.specs.Prelude.{◌≡◌, false};
ghost use Rattle.sqlite.specs.Held.{state};
ghost use Rattle.dh_rows.specs.Calls.{IsHonest};

use sqlite::{Alter, Connection, Error, Row};

/// Queries the count of the projects. Outside a transaction all that is seen stays.
fn count_row<S: Alter>(conn: &mut Connection<S>) -> Result<Row, Error>
    ensures outside { conn.old.in_transaction ≡ false → conn.new.in_transaction ≡ false }
    ensures same { conn.old.in_transaction ≡ false → IsHonest S.Store conn.new
        → IsHonest S.Store conn.old
        × ((state S.Store conn.new).now ≡ (state S.Store conn.old).now) }
{
    // (this call shows the proof that what is seen was committed)
    let _ = conn.is_autocommit();
    conn.query_row("SELECT COUNT(*) FROM project", &[])
}

/// Counts the projects; 0 where there is no such table, which opening the tables tells.
pub fn count_projects<S: Alter>(conn: &mut Connection<S>) -> i64
    ensures outside { conn.old.in_transaction ≡ false → conn.new.in_transaction ≡ false }
    ensures same { conn.old.in_transaction ≡ false → IsHonest S.Store conn.new
        → IsHonest S.Store conn.old
        × ((state S.Store conn.new).now ≡ (state S.Store conn.old).now) }
{
    match count_row(conn) {
        Ok(row) => row.get(0).unwrap_or(0),
        Err(_) => 0,
    }
}
