//! The rows that a query answers, taken one at a time.

ghost use Rattle.std.specs.Prelude.{◌≡◌, ℕ, List, [], ◌∷◌, ◌++◌, OnOk};
ghost use Rattle.sqlite_value.specs.Order.{Row as Values};
ghost use Rattle.sqlite.specs.Held.{state};
ghost use Rattle.dh_rows.specs.Calls.{IsHonest};
ghost use Rattle.dh_opening.specs.Gathering.{TakesNext};
ghost use Rattle.dh_opening.specs.Opening.{AnswersQuery, IsWhole, JudgesTables};

use crate::fault::TablesFault;
use dh_ports::Fault;
use dh_rows::fault_of;
use sqlite::{Alter, Connection, Row, Rows};
use std::alloc::{AllocError, Global};

/// What takes the rows of an answer in turn.
pub trait Taker {
    // What is known of the taker, by what it was at the start, once it took these rows.
    ghost took: { Self → Self → List Values → Type 0 };

    /// Takes the next row. A taker that ran out of memory is of no more use.
    fn take(&mut self, alloc: Global, row: &Row) -> Result<(), AllocError>
        ensures { OnOk result ((start : Self) (rows : List Values) → took start self.old rows
            → took start self.new (rows ++ row.now ∷ [])) };
}

/// Takes the next row; false where there is none.
fn take_next<S: Alter, G: Taker>(
    rows: &mut Rows<'_, S>,
    alloc: Global,
    taker: &mut G,
) -> Result<bool, TablesFault>
    ensures same_reference { rows.new.conn.ghost_name ≡ rows.old.conn.ghost_name }
    ensures takes { (sql : List ℕ) (start : G) → TakesNext S.Store sql (G.Taker.took start)
        rows.old.conn.now rows.new.conn.now taker.old taker.new result }
{
    if let Err(error) = rows.advance() {
        return Err(TablesFault::Failed(fault_of(error)));
    }
    match rows.get() {
        Some(row) => {
            taker.take(alloc, row)?;
            Ok(true)
        }
        None => Ok(false),
    }
}

/// Takes all rows that a query answers, each before the next is read. More rows than can be counted are refused as out of
/// memory.
pub fn gather<S: Alter, G: Taker>(
    conn: &mut Connection<S>,
    alloc: Global,
    sql: &str,
    taker: &mut G,
) -> Result<(), TablesFault>
    requires whole { IsHonest S.Store conn.old → IsWhole (state S.Store conn.old) sql.now }
    requires start { G.Taker.took taker.old taker.old [] }
    ensures opens { JudgesTables S.Store conn.old conn.new result
        (λ db _. (rows : List Values) × AnswersQuery db sql.now rows
        × G.Taker.took taker.old taker.new rows)
        (λ _. ⊥) }
    ensures took { OnOk result ((rows : List Values) × G.Taker.took taker.old taker.new rows) }
{
    let mut rows = match conn.query(sql, &[]) {
        Ok(rows) => rows,
        Err(error) => return Err(TablesFault::Failed(fault_of(error))),
    };
    'rows: for _ in 0..u64::MAX {
        if !take_next(&mut rows, alloc, taker)? {
            return Ok(());
        }
    }
    Err(TablesFault::Failed(Fault::Memory))
}
