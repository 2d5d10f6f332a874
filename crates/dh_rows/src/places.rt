//! Where a table stands among those of others, and whether one of a name can be made.

ghost use Rattle.std.specs.Prelude.{◌≡◌, ◌==◌, ◌<◌, ◌^◌, ◌||◌, ◌↔◌, false, not, is_some, IsTrue, IfSome};
ghost use Rattle.std.specs.List.{list_all, list_any, position_from};
ghost use Rattle.sqlite_schema.specs.declared.schema.Table.{Table as spec_Table};
ghost use Rattle.sqlite_schema.specs.Names.{same_name};
ghost use Rattle.sqlite.specs.Does.{lacks_sequence};
ghost use Rattle.sqlite.specs.Rows.{sequence};
ghost use Rattle.dh_rows.specs.Places.{IsFree, IsUnmentioned, HasTable, IsUnreferred};

use sqlite_schema::names::same_name;
use sqlite_schema::schema::{Reference, Schema, Table};

/// The first number of the trees of tables that a statement computes; a stored table has a smaller one.
pub(crate) const COMPUTED: u32 = 1 << 31;

/// Whether no table, index or view has the name.
pub fn is_free(schema: &Schema, name: &[u8]) -> bool
    ensures { IsTrue result ↔ IsFree schema.now name.now }
{
    schema.table_named(name).is_none()
        && schema.index_named(name).is_none()
        && schema.view_named(name).is_none()
}

fn spares(reference: &Reference, name: &[u8]) -> bool
    ensures { result ≡ not (same_name name.now reference.now.parent) }
{
    !same_name(name, reference.parent.as_slice())
}

fn all_spare(table: &Table, name: &[u8]) -> bool
    ensures { result ≡ list_all (λ ref. not (same_name name.now ref.parent)) table.now.references }
{
    table.references.as_slice().iter().all(|r| spares(r, name))
}

fn tables_spare(schema: &Schema, name: &[u8]) -> bool
    ensures { result ≡ list_all (λ t. list_all (λ ref. not (same_name name.now ref.parent)) t.references) schema.now.tables }
{
    schema.tables.as_slice().iter().all(|t| all_spare(t, name))
}

/// Whether no foreign key names a table of this name.
pub fn is_unmentioned(schema: &Schema, name: &[u8]) -> bool
    ensures { IsTrue result ↔ IsUnmentioned schema.now name.now }
{
    tables_spare(schema, name)
}

fn has_counted(schema: &Schema) -> bool
    ensures { result ≡ list_any (λ t. t.is_counted) schema.now.tables }
{
    schema.tables.as_slice().iter().any(|t| t.is_counted)
}

fn has_counts(schema: &Schema) -> bool
    ensures { result ≡ is_some (sequence schema.now) }
{
    match schema.table_named(b"sqlite_sequence") {
        Some(at) => schema.tables.get(at).is_some(),
        None => false,
    }
}

/// Whether each counted (AUTOINCREMENT) table has the table that counts for it.
pub fn keeps_counts(schema: &Schema) -> bool
    ensures { IsTrue result ↔ (lacks_sequence schema.now ≡ false) }
{
    !has_counted(schema) || has_counts(schema)
}

fn place_with_tree(schema: &Schema, tree: u32) -> Option<usize>
    ensures { result ≡ position_from (λ t. t.tree == tree) 0 schema.now.tables }
{
    schema.tables.as_slice().iter().position(|t| t.tree == tree)
}

pub(crate) fn all_bear(schema: &Schema, tree: u32, name: &[u8]) -> bool
    ensures { result ≡ list_all (λ t. not (t.tree == tree) || same_name t.name name.now) schema.now.tables }
{
    schema
        .tables
        .as_slice()
        .iter()
        .all(|t| t.tree != tree || t.is_named(name))
}

/// Where the table of this name stands, if its tree is stored and its own, and no foreign key names it.
pub fn place_of(schema: &Schema, name: &[u8]) -> Option<usize>
    ensures { IfSome result (λ at. (table : spec_Table) × HasTable schema.now name.now at table × (table.tree < 2 ^ 31) × IsUnreferred schema.now table.tree) }
{
    let at = schema.table_named(name)?;
    let table = schema.tables.get(at)?;
    let first = place_with_tree(schema, table.tree)?;
    if first != at || table.tree >= COMPUTED {
        return None;
    }
    if all_bear(schema, table.tree, name) && is_unmentioned(schema, name) {
        Some(at)
    } else {
        None
    }
}
