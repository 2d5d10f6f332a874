//! A table as it is made, and whether it stands so in a schema, with nothing of others on it.

ghost use Rattle.std.specs.Prelude.{◌≡◌, ◌==◌, ◌<◌, ◌^◌, ◌||◌, ◌↔◌, [], None, false, not, map, filter, length, IsTrue};
ghost use Rattle.std.specs.List.{list_all};
ghost use Rattle.sqlite_value.specs.Keys.{plain};
ghost use Rattle.sqlite_schema.specs.Names.{same_name};
ghost use Rattle.dh_rows.specs.Places.{needed, keyed_table, unique_keys, IsUnmentioned};
ghost use Rattle.dh_rows.specs.Shapes.{table_of, is_key_at, IsLone, IsUniquelyIndexed, StandsAlone};

use crate::places::{COMPUTED, all_bear, is_unmentioned};
use sqlite_schema::code::Terms;
use sqlite_schema::schema::{Column, Index, Kind, Schema, Stamps, Table};
use sqlite_value::keys::{Collation, Order};
use sqlite_value::value::Value;

/// A table as it is made: STRICT, each column NOT NULL and with no default, compared by bytes, and a primary key or none.
#[derive(Clone, Copy, Debug)]
pub struct Shape<'a> {
    pub name: &'a [u8],
    /// The places of the key's columns, counted from 1; none where there is no key.
    pub primary: &'a [usize],
    pub columns: &'a [(&'a [u8], Kind)],
}

fn is_column(column: &Column, name: &[u8], kind: Kind) -> bool
    ensures { IsTrue result ↔ (column.now ≡ needed kind name.now) }
{
    column.name.as_slice() == name
        && column.kind == kind
        && column.is_strict
        && column.not_null
        && matches!(column.default, Value::Null)
        && column.collation == Collation::Binary
}

fn are_columns(columns: &[Column], made: &[(&[u8], Kind)]) -> bool
    ensures { IsTrue result ↔ (columns.now ≡ map (λ c. needed c.1 c.0.now) made.now) }
{
    if columns.len() != made.len() {
        return false;
    }
    for (at, (name, kind)) in made.iter().enumerate() {
        if !is_column(&columns[at], name, *kind) {
            return false;
        }
    }
    true
}

fn has_uniques(table: &Table, places: &[usize]) -> bool
    ensures { IsTrue result ↔ (table.now.uniques ≡ (keyed_table [] places.now []).uniques) }
{
    match table.uniques.as_slice() {
        [] => places.is_empty(),
        [key] => !places.is_empty() && key.as_slice() == places,
        _ => false,
    }
}

fn has_orders(table: &Table, places: &[usize]) -> bool
    ensures { IsTrue result ↔ (table.now.orders ≡ (keyed_table [] places.now []).orders) }
{
    match table.orders.as_slice() {
        [] => places.is_empty(),
        [order] => !places.is_empty() && *order == Order::PLAIN,
        _ => false,
    }
}

/// Whether the table has the key at these places and no other; with no places, whether it has no key.
fn is_keyed(table: &Table, places: &[usize]) -> bool
    ensures { let made = keyed_table [] places.now [] in
        IsTrue result ↔ ((table.now.primary ≡ made.primary)
        × (table.now.uniques ≡ made.uniques) × (table.now.orders ≡ made.orders)) }
{
    table.primary.as_slice() == places && has_uniques(table, places) && has_orders(table, places)
}

fn has_no_term(terms: &Terms) -> bool
    ensures { IsTrue result ↔ (terms.now ≡ []) }
{
    terms.roots.is_empty()
}

fn has_no_stamp(stamps: &Stamps) -> bool
    ensures { IsTrue result ↔ (stamps.now ≡ (keyed_table [] [] []).stamps) }
{
    stamps.places.is_empty() && has_no_term(&stamps.terms) && stamps.formats.is_empty()
}

/// Whether the table has nothing but columns and a key.
fn is_bare(table: &Table) -> bool
    ensures { IsTrue result ↔ ((table.now.key ≡ None) × (table.now.checks ≡ [])
        × (table.now.references ≡ []) × (table.now.computed ≡ [])
        × (table.now.stamps ≡ (keyed_table [] [] []).stamps) × (table.now.is_counted ≡ false)) }
{
    table.key.is_none()
        && has_no_term(&table.checks)
        && table.references.is_empty()
        && table.computed.is_empty()
        && has_no_stamp(&table.stamps)
        && !table.is_counted
}

/// Whether the table is the one that the shape makes, but for its tree.
fn is_made(table: &Table, shape: &Shape<'_>) -> bool
    ensures { IsTrue result ↔ (table.now ≡ record (table_of shape.now) { tree = table.now.tree }) }
{
    table.name.as_slice() == shape.name
        && are_columns(table.columns.as_slice(), shape.columns)
        && is_keyed(table, shape.primary)
        && is_bare(table)
}

/// Whether each table with this tree has this name.
fn is_lone(schema: &Schema, tree: u32, name: &[u8]) -> bool
    ensures { IsTrue result ↔ IsLone schema.now tree name.now }
{
    all_bear(schema, tree, name)
}

fn is_key_at(index: &Index, places: &[usize]) -> bool
    ensures { result ≡ is_key_at places.now index.now }
{
    index.is_unique && index.order == Order::PLAIN && index.columns.as_slice() == places
}

fn all_keys(schema: &Schema, tree: u32, places: &[usize]) -> bool
    ensures { result
        ≡ list_all (λ i. not (i.table == tree) || is_key_at places.now i) schema.now.indexes }
{
    schema
        .indexes
        .as_slice()
        .iter()
        .all(|i| i.table != tree || is_key_at(i, places))
}

fn count_on(schema: &Schema, tree: u32) -> usize
    ensures { result ≡ length (filter (λ i. i.table == tree) schema.now.indexes) }
{
    schema
        .indexes
        .as_slice()
        .iter()
        .filter(|i| i.table == tree)
        .count()
}

/// Whether the tree's indexes are that of a key at these places alone; with no places, whether it has none.
fn has_own_indexes(schema: &Schema, tree: u32, places: &[usize]) -> bool
    ensures { let keys = map (λ key. (key, plain)) (keyed_table [] places.now []).uniques in
        IsTrue result ↔ ((unique_keys schema.now tree ≡ keys) × IsUniquelyIndexed schema.now tree) }
{
    count_on(schema, tree) == places.len().min(1) && all_keys(schema, tree, places)
}

/// Whether a table of this shape, with this tree, is stored, and nothing of others is on it.
fn is_alone(schema: &Schema, tree: u32, shape: &Shape<'_>) -> bool
    ensures { let t = table_of shape.now in
        IsTrue result ↔ ((tree < 2 ^ 31) × IsLone schema.now tree t.name
        × IsUnmentioned schema.now t.name
        × (unique_keys schema.now tree ≡ map (λ key. (key, plain)) t.uniques)
        × IsUniquelyIndexed schema.now tree) }
{
    tree < COMPUTED
        && is_lone(schema, tree, shape.name)
        && is_unmentioned(schema, shape.name)
        && has_own_indexes(schema, tree, shape.primary)
}

/// Whether the table stands in the schema just as it is made, alone: nothing of others is bound to it.
pub fn is_table(schema: &Schema, shape: &Shape<'_>) -> bool
    ensures { IsTrue result ↔ StandsAlone schema.now (table_of shape.now) }
{
    let Some(at) = schema.table_named(shape.name) else {
        return false;
    };
    let Some(table) = schema.tables.get(at) else {
        return false;
    };
    is_made(table, shape) && is_alone(schema, table.tree, shape)
}
