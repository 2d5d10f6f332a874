//! The passes of schema 1, as a table that is read whole.

ghost use Rattle.std.specs.Prelude.{[], ◌∷◌};
ghost use Rattle.dh_migrating.specs.OldPasses as spec;
ghost use Rattle.dh_opening.specs.Readings as readings;

use crate::kept::Kept;
use crate::rows::has_values;
use dh_migrating::OldPassRow;
use sqlite::Row;
use std::alloc::{AllocError, Global};

impl Kept for OldPassRow {
    ghost table = { spec.old_pass_table };

    ghost ids = { readings.pass_ids };

    ghost rows = { readings.old_pass_rows };

    ghost order = { 0 ∷ 1 ∷ [] };

    ghost kept = { spec.old_passes };

    ghost reads = { readings.old_pass_reads };

    ghost suits = { readings.old_pass_suits };

    fn ids() -> &'static str {
        "SELECT rowid FROM pass ORDER BY rowid"
    }

    fn rows() -> &'static str {
        "SELECT host, pass FROM pass ORDER BY host, pass"
    }

    fn key() -> &'static [usize] {
        &[0, 1]
    }

    fn is_kept_as(&self, _alloc: Global, row: &Row) -> Result<bool, AllocError> {
        Ok(has_values(row, &self.values()))
    }
}
