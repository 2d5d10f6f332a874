//! The projects of a database.

ghost use Rattle.dh_records.specs.Codings as coding;
ghost use Rattle.dh_records.specs.Constraints.{InOrder};
ghost use Rattle.dh_constraints.specs.Order.{InOrder-prop};

use dh_records::ProjectRow;

/// The projects of a database, in the order of their hosts.
#[derive(Drop)]
pub struct Projects {
    pub rows: Vec<ProjectRow>,
    pub ghost in_order: { InOrder coding.projects.key rows.items } by { InOrder-prop coding.projects.key _ },
}
