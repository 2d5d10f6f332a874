//! Whether a query answered the rowids of a table.

ghost use Rattle.std.specs.Prelude.{◌≡◌, ◌↔◌, IsTrue};
ghost use Rattle.dh_rows.specs.Whole.{AreRowids, is_above, lone_int};

use sqlite::Row;
use sqlite::types::ValueRef;

fn rowid_of(row: &Row) -> Option<i64>
    ensures { result ≡ lone_int row.now }
{
    if row.column_count() != 1 {
        return None;
    }
    match row.get_ref(0) {
        Ok(ValueRef::Int(id)) => Some(id),
        _ => None,
    }
}

fn is_above(last: Option<i64>, id: i64) -> bool
    ensures { result ≡ is_above last id }
{
    match last {
        Some(last) => last < id,
        None => true,
    }
}

/// Whether the rows are integers, each above those before it, as the rowids of a table are.
pub fn are_rowids(rows: &[Row]) -> bool
    ensures { IsTrue result ↔ AreRowids rows.now }
{
    let mut last = None;
    for row in rows {
        let Some(id) = rowid_of(row) else {
            return false;
        };
        if !is_above(last, id) {
            return false;
        }
        last = Some(id);
    }
    true
}
