//! Looking up the records of one host.

ghost use Rattle.std.specs.Prelude.{◌≡◌, filter, find, is_some, option_map};
ghost use Rattle.dh_records.specs.Codings as coding;
ghost use Rattle.dh_records.specs.Constraints.{InOrder};
ghost use Rattle.dh_records.specs.Lists.{is_project, is_lang_of, is_version, is_pick_of, is_pass_of, is_rule_of, is_redirect_of};
ghost use Rattle.dh_records.specs.Constraints as kept;
ghost use Rattle.dh_constraints.specs.Lists.{lists_in};

use crate::places::is_among;
use crate::records::Records;
use crate::runs::{named_in, run_of};
use dh_records::{DefaultRow, LangRow, PassRow, ProjectRow, RedirectRow, RuleRow, VersionRow};
use dh_texts::{HostName, Lang, Slug, Token};

/// Whether one of the projects is this host's.
pub fn is_host_among(projects: &[ProjectRow], host: &HostName) -> bool
    requires { InOrder coding.projects.key projects.now }
    ensures { result ≡ is_some (find (is_project host.now) projects.now) }
{
    !run_of(projects, host).is_empty()
}

pub fn has_project(records: &Records, host: &HostName) -> bool
    ensures { result ≡ kept.has_project (lists_in records.now) host.now }
{
    is_host_among(records.projects.as_slice(), host)
}

pub fn langs_of<'a>(records: &'a Records, host: &HostName) -> &'a [LangRow]
    ensures { result.now ≡ filter (is_lang_of host.now) (lists_in records.now).langs }
{
    run_of(records.langs.as_slice(), host)
}

pub fn picks_of<'a>(records: &'a Records, host: &HostName) -> &'a [DefaultRow]
    ensures { result.now ≡ filter (is_pick_of host.now) (lists_in records.now).picks }
{
    run_of(records.picks.as_slice(), host)
}

pub fn passes_of<'a>(records: &'a Records, host: &HostName) -> &'a [PassRow]
    ensures { result.now ≡ filter (is_pass_of host.now) (lists_in records.now).passes }
{
    run_of(records.passes.as_slice(), host)
}

pub fn rules_of<'a>(records: &'a Records, host: &HostName) -> &'a [RuleRow]
    ensures { result.now ≡ filter (is_rule_of host.now) (lists_in records.now).rules }
{
    run_of(records.rules.as_slice(), host)
}

pub fn redirects_of<'a>(records: &'a Records, host: &HostName) -> &'a [RedirectRow]
    ensures { result.now ≡ filter (is_redirect_of host.now) (lists_in records.now).redirects }
{
    run_of(records.redirects.as_slice(), host)
}

fn version_of<'a>(records: &'a Records, host: &HostName, slug: &Slug) -> Option<&'a VersionRow>
    ensures { option_map (λ v. v.now) result
        ≡ find (is_version host.now slug.now) (lists_in records.now).versions }
{
    named_in(records.versions.as_slice(), host, slug.as_str())
}

pub fn has_version(records: &Records, host: &HostName, slug: &Slug) -> bool
    ensures { result ≡ kept.has_version (lists_in records.now) host.now slug.now }
{
    version_of(records, host, slug).is_some()
}

pub fn has_active(records: &Records, host: &HostName, slug: &Slug) -> bool
    ensures { result ≡ kept.has_active (lists_in records.now) host.now slug.now }
{
    match version_of(records, host, slug) {
        Some(row) => row.version.active,
        None => false,
    }
}

pub fn has_pass(records: &Records, host: &HostName, pass: &Token) -> bool
    ensures { result ≡ kept.has_pass (lists_in records.now) host.now pass.now }
{
    named_in(records.passes.as_slice(), host, pass.as_str()).is_some()
}

pub fn has_language(records: &Records, host: &HostName, lang: &Lang) -> bool
    ensures { result ≡ kept.has_language (lists_in records.now) host.now lang.now }
{
    is_among(langs_of(records, host), lang.as_str())
}
