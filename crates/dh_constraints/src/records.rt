//! The records of a database, but for those that are derived and the answers to retry keys.

ghost use Rattle.std.specs.Prelude.{[]};
ghost use Rattle.dh_records.specs.Constraints.{AreInOrder};
ghost use Rattle.dh_constraints.specs.Order.{AreInOrder-prop};

use dh_records::{
    DefaultRow, GrantRow, LangRow, PageRow, PassRow, ProjectRow, RedirectRow, RuleRow, VersionRow,
};

/// The records of a database from which others are derived, each list in the order of its keys; answers to retry keys are judged
/// one at a time (`is_fit_key`), and none is kept here.
#[derive(Drop)]
pub struct Records {
    pub projects: Vec<ProjectRow>,
    pub langs: Vec<LangRow>,
    pub versions: Vec<VersionRow>,
    pub pages: Vec<PageRow>,
    pub picks: Vec<DefaultRow>,
    pub passes: Vec<PassRow>,
    pub held: Vec<GrantRow>,
    pub rules: Vec<RuleRow>,
    pub redirects: Vec<RedirectRow>,
    pub ghost in_order: { AreInOrder (record {
      projects = projects.items;
      langs = langs.items;
      versions = versions.items;
      pages = pages.items;
      used = [];
      picks = picks.items;
      passes = passes.items;
      held = held.items;
      rules = rules.items;
      redirects = redirects.items;
      aliases = [];
      routes = [];
    }) } by { AreInOrder-prop _ },
}
