//! Our tables as they are made, and whether a schema has them so.

ghost use Rattle.std.specs.Prelude.{◌↔◌, ◌∷◌, IsTrue};
ghost use Rattle.std.specs.List.{AllByRecursion};
ghost use Rattle.dh_rows.specs.Shapes.{StandsAlone, table_of};
ghost use Rattle.dh_schema.specs.Making.{derived_tables};
ghost use Rattle.dh_schema.specs.Tables.{meta_table, pass_table};
ghost use Rattle.dh_migrating.specs.OldPasses.{old_pass_table};
ghost use Rattle.dh_opening.specs.Migrating.{AreOldIn};
ghost use Rattle.dh_opening.specs.Opening.{CanDeriveAnew, CanDrop, CanMakeAnew, other_tables};

use dh_migrating::can_convert;
use dh_rows::{Shape, is_free, is_table, is_unmentioned, keeps_counts};
use sqlite_schema::schema::{Kind, Schema};

/// The shape of the table of the number.
const META: Shape<'static> = Shape {
    name: b"meta",
    primary: &[],
    columns: &[(b"schema", Kind::Integer)],
};

/// The shape of the table of passes.
const PASS: Shape<'static> = Shape {
    name: b"pass",
    primary: &[1, 2],
    columns: &[
        (b"host", Kind::Text),
        (b"pass", Kind::Text),
        (b"until", Kind::Integer),
    ],
};

/// The shape of the table of passes as schema 1 made it.
const OLD_PASS: Shape<'static> = Shape {
    name: b"pass",
    primary: &[1, 2],
    columns: &[(b"host", Kind::Text), (b"pass", Kind::Text)],
};

/// The shape of the table of aliases.
pub const ALIAS: Shape<'static> = Shape {
    name: b"alias",
    primary: &[1, 2, 3],
    columns: &[
        (b"host", Kind::Text),
        (b"class", Kind::Text),
        (b"name", Kind::Integer),
        (b"slug", Kind::Text),
    ],
};

/// The shape of the table of routes.
pub const ROUTE: Shape<'static> = Shape {
    name: b"route",
    primary: &[1, 2, 3],
    columns: &[
        (b"host", Kind::Text),
        (b"seg", Kind::Text),
        (b"place", Kind::Integer),
        (b"force", Kind::Integer),
    ],
};

/// The shapes of our other tables, in the order in which they are made.
const OTHERS: [Shape<'static>; 9] = [
    Shape {
        name: b"rule",
        primary: &[1, 2],
        columns: &[
            (b"host", Kind::Text),
            (b"place", Kind::Integer),
            (b"kind", Kind::Integer),
            (b"action", Kind::Integer),
            (b"pattern", Kind::Text),
        ],
    },
    Shape {
        name: b"redirect",
        primary: &[1, 2],
        columns: &[
            (b"host", Kind::Text),
            (b"place", Kind::Integer),
            (b"kind", Kind::Integer),
            (b"status", Kind::Integer),
            (b"force", Kind::Integer),
            (b"source", Kind::Text),
            (b"target", Kind::Text),
        ],
    },
    Shape {
        name: b"project",
        primary: &[1],
        columns: &[
            (b"host", Kind::Text),
            (b"main", Kind::Text),
            (b"branch", Kind::Text),
            (b"wkey", Kind::Text),
            (b"private", Kind::Integer),
        ],
    },
    Shape {
        name: b"lang",
        primary: &[1, 2],
        columns: &[
            (b"host", Kind::Text),
            (b"lang", Kind::Text),
            (b"place", Kind::Integer),
        ],
    },
    Shape {
        name: b"version",
        primary: &[1, 2],
        columns: &[
            (b"host", Kind::Text),
            (b"slug", Kind::Text),
            (b"name", Kind::Text),
            (b"kind", Kind::Integer),
            (b"active", Kind::Integer),
            (b"hidden", Kind::Integer),
            (b"private", Kind::Integer),
        ],
    },
    Shape {
        name: b"page",
        primary: &[1, 2, 3, 4],
        columns: &[
            (b"host", Kind::Text),
            (b"slug", Kind::Text),
            (b"lang", Kind::Text),
            (b"path", Kind::Text),
            (b"media", Kind::Text),
            (b"body", Kind::Blob),
        ],
    },
    Shape {
        name: b"used",
        primary: &[1, 2, 3, 4],
        columns: &[
            (b"host", Kind::Text),
            (b"slug", Kind::Text),
            (b"op", Kind::Integer),
            (b"retry", Kind::Text),
            (b"answer", Kind::Text),
        ],
    },
    Shape {
        name: b"pick",
        primary: &[1, 2],
        columns: &[
            (b"host", Kind::Text),
            (b"name", Kind::Text),
            (b"rank", Kind::Integer),
        ],
    },
    Shape {
        name: b"holds",
        primary: &[1, 2, 3],
        columns: &[
            (b"host", Kind::Text),
            (b"pass", Kind::Text),
            (b"slug", Kind::Text),
        ],
    },
];

/// Whether all these tables stand in the schema, alone.
fn all_stand(schema: &Schema, shapes: &[Shape<'_>]) -> bool
    ensures { IsTrue result
        ↔ AllByRecursion (λ s. StandsAlone schema.now (table_of s)) shapes.now }
{
    let [first, others @ ..] = shapes else {
        return true;
    };
    is_table(schema, first) && all_stand(schema, others)
}

/// Whether the table of the number stands in the schema as it is made, alone.
pub fn has_number(schema: &Schema) -> bool
    ensures { IsTrue result ↔ StandsAlone schema.now meta_table }
{
    is_table(schema, &META)
}

/// Whether our other tables stand in the schema as they are made, alone.
fn others_stand(schema: &Schema) -> bool
    ensures { IsTrue result ↔ AllByRecursion (StandsAlone schema.now) other_tables }
{
    all_stand(schema, &OTHERS)
}

/// Whether the tables of derived records stand in the schema as they are made, alone.
pub fn derived_stand(schema: &Schema) -> bool
    ensures { IsTrue result ↔ AllByRecursion (StandsAlone schema.now) derived_tables }
{
    is_table(schema, &ALIAS) && is_table(schema, &ROUTE)
}

/// Whether a table of this shape stands in the schema, alone, and no index or view shares its name.
pub fn can_drop(schema: &Schema, shape: &Shape<'_>) -> bool
    ensures { IsTrue result ↔ CanDrop schema.now (table_of shape.now) }
{
    is_table(schema, shape)
        && schema.index_named(shape.name).is_none()
        && schema.view_named(shape.name).is_none()
}

/// Whether a table of this shape can be dropped, or is missing and can be made.
fn can_make_anew(schema: &Schema, shape: &Shape<'_>) -> bool
    ensures { IsTrue result ↔ CanMakeAnew schema.now (table_of shape.now) }
{
    can_drop(schema, shape) || (is_free(schema, shape.name) && is_unmentioned(schema, shape.name))
}

/// Whether the tables of derived records can be made anew.
pub fn can_derive_anew(schema: &Schema) -> bool
    ensures { IsTrue result ↔ CanDeriveAnew schema.now }
{
    can_make_anew(schema, &ALIAS) && can_make_anew(schema, &ROUTE) && keeps_counts(schema)
}

/// Whether the table of passes and our other tables stand in the schema as they are made, alone.
pub fn are_ours(schema: &Schema) -> bool
    ensures { IsTrue result ↔ AllByRecursion (StandsAlone schema.now) (pass_table ∷ other_tables) }
{
    is_table(schema, &PASS) && others_stand(schema)
}

/// Whether the table of passes of schema 1 and our other tables stand in the schema as they are made, alone.
fn old_stand(schema: &Schema) -> bool
    ensures { IsTrue result ↔ AllByRecursion (StandsAlone schema.now) (old_pass_table ∷ other_tables) }
{
    is_table(schema, &OLD_PASS) && others_stand(schema)
}

/// Whether the tables of schema 1 stand in the schema as they are made, alone, and the table of passes can be dropped.
pub fn are_old(schema: &Schema) -> bool
    ensures { IsTrue result ↔ AreOldIn schema.now }
{
    old_stand(schema) && can_convert(schema)
}
