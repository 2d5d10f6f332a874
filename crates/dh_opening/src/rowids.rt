//! Rowids that are taken one at a time; none is kept.

ghost use Rattle.std.specs.Prelude.{◌≡◌, [], None, true};
ghost use Rattle.dh_rows.specs.Whole.{lone_int};
ghost use Rattle.dh_opening.specs.Rowids as spec;
ghost use Rattle.dh_opening.specs.Rowids.{TookRowids};

use crate::gathering::Taker;
use crate::rows::value_at;
use sqlite::Row;
use sqlite::types::ValueRef;
use std::alloc::{AllocError, Global};

/// The rowids of some rows, as long as each is an integer above the one before it.
#[derive(Drop)]
pub struct Rowids {
    last: Option<i64>,
    rise: bool,
}

/// The integer that is all of a row.
fn rowid_of(row: &Row) -> Option<i64>
    ensures { result ≡ lone_int row.now }
{
    if row.column_count() != 1 {
        return None;
    }
    match value_at(row, 0) {
        ValueRef::Int(id) => Some(id),
        _ => None,
    }
}

/// Whether it is a rowid above the last one, if there was one.
fn is_behind(last: Option<i64>, id: Option<i64>) -> bool
    ensures { result ≡ spec.is_behind last id }
{
    match (last, id) {
        (Some(last), Some(id)) => last < id,
        (None, Some(_)) => true,
        (_, None) => false,
    }
}

impl Rowids {
    /// Starts with no row.
    pub fn new() -> Rowids
        ensures { TookRowids result [] }
    {
        Rowids {
            last: None,
            rise: true,
        }
    }

    /// Whether the rows so far are rowids in their order.
    pub fn rise(&self) -> bool
        ensures { result ≡ self.now.rise }
    {
        self.rise
    }
}

impl Taker for Rowids {
    ghost took = { λ _ ids rows. TookRowids ids rows };

    fn take(&mut self, _alloc: Global, row: &Row) -> Result<(), AllocError> {
        let id = rowid_of(row);
        self.rise = self.rise && is_behind(self.last, id);
        self.last = id;
        Ok(())
    }
}
