//! Transactions and statements.

ghost use Rattle.std.specs.Prelude.{IfErr};
ghost use Rattle.sqlite.specs.Held.{state};
ghost use Rattle.sqlite.specs.State.{Survives, CommitsBy};
ghost use Rattle.sqlite.specs.Values.{bound};
ghost use Rattle.dh_rows.specs.Calls.{AreRows, StoreFaultHasCause, FindsSuch, IsHonest, IsPlainEdit, IsPlainLook, IsRejected, IsUnanswered, IsUnfit, KeepsFaults, LeavesSeen, OnlyBegins, OnlyCommits, OnlyEdits, OnlyLooks, OnlyUndoes, RunsStatement, RefusalRollsBack, whole};

use crate::fault::fault_of;
use dh_ports::Fault;
use sqlite::types::ValueRef;
use sqlite::{Alter, Connection, Row};

/// Runs one statement that is no query.
pub fn run<S: Alter>(
    conn: &mut Connection<S>,
    sql: &str,
    params: &[ValueRef<'_>],
) -> Result<(), Fault>
    ensures runs { RunsStatement S.Store conn.old conn.new sql.now (bound params.now) result }
    ensures told { IfErr result (IsRejected S.Store conn.old conn.new sql.now (bound params.now)) }
    ensures err { RefusalRollsBack S.Store conn.old conn.new result }
    ensures lasts { KeepsFaults S.Store conn.old conn.new }
    ensures survives { Survives (state S.Store conn.old) (state S.Store conn.new)
        (CommitsBy sql.now (bound params.now) (state S.Store conn.old)) }
{
    match conn.execute(sql, params) {
        Ok(_count) => Ok(()),
        Err(error) => Err(fault_of(error)),
    }
}

/// Begins a transaction. Within one it is refused.
pub fn begin<S: Alter>(conn: &mut Connection<S>) -> Result<(), Fault>
    ensures { OnlyBegins S.Store whole conn.old conn.new result }
{
    run(conn, "BEGIN", &[])
}

/// Commits what was changed since the begin. Outside a transaction it is refused.
pub fn commit<S: Alter>(conn: &mut Connection<S>) -> Result<(), Fault>
    ensures commits { OnlyCommits S.Store whole conn.old conn.new result }
    ensures crash { LeavesSeen S.Store conn.old conn.new }
{
    run(conn, "COMMIT", &[])
}

/// Undoes what was changed since the begin. Outside a transaction it does nothing.
pub fn rollback<S: Alter>(conn: &mut Connection<S>) -> Result<(), Fault>
    ensures { OnlyUndoes S.Store whole conn.old conn.new result }
{
    if conn.is_autocommit() {
        return Ok(());
    }
    run(conn, "ROLLBACK", &[])
}

/// Runs one INSERT, DELETE, CREATE TABLE or DROP TABLE.
pub fn change<S: Alter>(
    conn: &mut Connection<S>,
    sql: &str,
    params: &[ValueRef<'_>],
) -> Result<(), Fault>
    requires edit { IsHonest S.Store conn.old → IsPlainEdit (state S.Store conn.old) sql.now }
    ensures edits { OnlyEdits S.Store conn.old conn.new sql.now (bound params.now) result }
    ensures told { IfErr result (IsRejected S.Store conn.old conn.new sql.now (bound params.now)) }
{
    run(conn, sql, params)
}

/// Runs one query of a table, and answers all its rows.
pub fn select<S: Alter>(
    conn: &mut Connection<S>,
    sql: &str,
    params: &[ValueRef<'_>],
) -> Result<Vec<Row>, Fault>
    requires look { IsHonest S.Store conn.old → IsPlainLook (state S.Store conn.old) sql.now }
    ensures rows { FindsSuch S.Store conn.old conn.new result
        (λ rows. AreRows (state S.Store conn.old) sql.now (bound params.now) rows.items) }
    ensures looks { OnlyLooks S.Store conn.old conn.new result }
    ensures told { IfErr result (IsUnanswered S.Store conn.old conn.new sql.now (bound params.now)) }
    ensures blamed { StoreFaultHasCause S.Store conn.old conn.new result
        (IsUnfit (state S.Store conn.old) sql.now (bound params.now)) }
{
    match conn.query_all(sql, params) {
        Ok(rows) => Ok(rows),
        Err(error) => Err(fault_of(error)),
    }
}
