//! The pages of a version in a language.

ghost use Rattle.std.specs.Prelude.{◌≡◌, IfOk, filter, map};
ghost use Rattle.dh_records.specs.Lists.{is_page_in};
ghost use Rattle.dh_view.specs.Stored as spec;
ghost use Rattle.dh_view.specs.View.{LearnsInTurn};

use crate::view::HostView;
use dh_paths::{Lang, Slug};
use dh_ports::Fault;
use dh_records::PageRow;
use dh_seen::StoredPage;
use dh_tables::Tables;
use sqlite::Alter;
use std::alloc::{AllocError, Global};

/// The page of a record, as a project has it.
fn page_of_row(row: PageRow) -> StoredPage
    ensures { result ≡ spec.page_of_row row }
{
    let PageRow {
        host: _host,
        slug,
        lang,
        path,
        page,
    } = row;
    StoredPage {
        lang,
        slug,
        path,
        page,
    }
}

fn pages_of_rows(alloc: Global, rows: Vec<PageRow>) -> Result<Vec<StoredPage>, AllocError>
    ensures { IfOk result (λ pages. pages.items ≡ map spec.page_of_row rows.items) }
{
    rows.into_iter().map(|row| page_of_row(row)).collect(alloc)
}

impl HostView<'_> {
    /// The pages of a version in a language, by path, with their bodies. Whether the class sees the version is not asked.
    pub fn pages_in<S: Alter>(
        &self,
        tables: &mut Tables<S>,
        slug: &Slug,
        lang: &Lang,
    ) -> Result<Vec<StoredPage>, Fault>
        ensures { LearnsInTurn S.Store tables.old tables.new result (λ l pages. pages.items
            ≡ map spec.page_of_row
            (filter (is_page_in self.now.host.now slug.now lang.now) l.pages)) }
    {
        let rows = tables.pages_in(self.alloc, self.host, slug.as_str(), lang.as_str())?;
        Ok(pages_of_rows(self.alloc, rows)?)
    }
}
