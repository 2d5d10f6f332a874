//! Rows of values: what they are, and whether their keys rise.

ghost use Rattle.std.specs.Prelude.{◌≡◌, ◌↔◌, ◌≤◌, pos, length, drop, map, IsTrue, option_copied};
ghost use Rattle.std.specs.declared.cmp.Ordering.TheVariants.{Less};
ghost use Rattle.sqlite_value.specs.declared.value.Value.TheVariants.{Int};
ghost use Rattle.sqlite_value.specs.Value.{owned};
ghost use Rattle.sqlite_value.specs.Order.{column, row_cmp};
ghost use Rattle.sqlite_trees.specs.Tree.{IsAscending};
ghost use Rattle.dh_opening.specs.Rows.{IsNext, part};

use sqlite::Row;
use sqlite::types::ValueRef;
use sqlite_value::order::{compare, is_same};
use std::cmp::Ordering;

/// The value in a column, and NULL past the end.
pub fn value_at(row: &Row, at: usize) -> ValueRef<'_>
    ensures { owned result ≡ column row.now at }
{
    match row.get_ref(at) {
        Ok(value) => value,
        Err(_) => ValueRef::Null,
    }
}

/// Whether a value is this integer.
pub fn is_number(value: ValueRef<'_>, number: u64) -> bool
    ensures { IsTrue result ↔ (owned value.entry ≡ Int (pos number)) }
{
    match value {
        ValueRef::Int(n) => match u64::try_from(n) {
            Ok(n) => n == number,
            Err(_) => false,
        },
        _ => false,
    }
}

/// Whether a row has these values from a place on, and no more.
fn has_from(row: &Row, at: usize, values: &[ValueRef<'_>]) -> bool
    requires { at ≤ length row.now }
    ensures { IsTrue result ↔ (drop at row.now ≡ map owned values.now) }
{
    let [first, others @ ..] = values else {
        return row.column_count() == at;
    };
    at < row.column_count() && is_same(value_at(row, at), *first) && has_from(row, at + 1, others)
}

/// Whether a row has these values.
pub fn has_values(row: &Row, values: &[ValueRef<'_>]) -> bool
    ensures { IsTrue result ↔ (row.now ≡ map owned values.now) }
{
    has_from(row, 0, values)
}

/// The order of two rows by the values at some places.
pub fn compare_at(a: &Row, b: &Row, places: &[usize]) -> Ordering
    ensures { result ≡ row_cmp (part places.now a.now) (part places.now b.now) }
{
    let [first, others @ ..] = places else {
        return Ordering::Equal;
    };
    compare(value_at(a, *first), value_at(b, *first)).then(compare_at(a, b, others))
}

/// Whether each row stands before the next, by the values at some places.
pub fn rise(rows: &[Row], places: &[usize]) -> bool
    ensures { IsTrue result
        ↔ IsAscending (λ a b. row_cmp (part places.now a) (part places.now b) ≡ Less) rows.now }
{
    let [first, others @ ..] = rows else {
        return true;
    };
    match others.first() {
        Some(second) => compare_at(first, second, places).is_lt() && rise(others, places),
        None => true,
    }
}

/// Whether a row stands behind the last one, by the first four columns.
pub fn is_next(last: Option<&Row>, row: &Row) -> bool
    ensures { IsTrue result ↔ IsNext (option_copied last.entry) row.now }
{
    match last {
        Some(last) => compare_at(last, row, &[0, 1, 2, 3]).is_lt(),
        None => true,
    }
}
