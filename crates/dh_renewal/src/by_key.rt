//! The names of a caller who has some grants, looked up by keys: few versions are read, however many there are.

ghost use Rattle.std.specs.Prelude.{◌≡◌, [], map, option_map};
ghost use Rattle.dh_schema.specs.Calling.{AnswersBy};
ghost use Rattle.dh_tables.specs.Going.{LooksAtRecords};
ghost use Rattle.dh_world.specs.Seen.{default_of};
ghost use Rattle.dh_class_names.specs.Rows.{latest_by, names_by, seen_under, stands_by};
ghost use Rattle.dh_renewal.specs.ByKey.{defaults_at, versions_at};

use crate::looks::rows_of;
use dh_aliases::Names;
use dh_class_names::{alias_slug, branch_slug, is_of_branch, is_seen, is_standing_alias};
use dh_paths::{HostName, RefName, Slug};
use dh_tables::{DefaultRow, GrantRow, Tables};
use dh_versions::Version;
use dh_world::Refusal;
use sqlite::Alter;
use std::alloc::Global;

/// The version under a slug, where a caller who has these grants sees it.
fn seen_version<S: Alter>(
    tables: &mut Tables<S>,
    alloc: Global,
    host: &HostName,
    grants: &[GrantRow],
    slug: &str,
) -> Result<Option<Version>, Refusal>
    ensures asks { LooksAtRecords S.Store tables.old tables.new result }
    ensures value { AnswersBy S.Store tables.old tables.new result
        (λ l seen. seen ≡ seen_under (versions_at host.now l) grants.now slug.now) }
{
    match tables.version(alloc, host, slug)? {
        Some(row) => {
            if is_seen(&row.version, grants, slug) {
                Ok(Some(row.version))
            } else {
                Ok(None)
            }
        }
        None => Ok(None),
    }
}

/// The slug that `latest` stands for.
fn latest_with<S: Alter>(
    tables: &mut Tables<S>,
    alloc: Global,
    host: &HostName,
    branch: &RefName,
    grants: &[GrantRow],
) -> Result<Option<Slug>, Refusal>
    ensures asks { LooksAtRecords S.Store tables.old tables.new result }
    ensures value { AnswersBy S.Store tables.old tables.new result
        (λ l slug. slug ≡ latest_by (versions_at host.now l) grants.now branch.now) }
{
    let Some(slug) = branch_slug(alloc, branch)? else {
        return Ok(None);
    };
    let Some(version) = seen_version(tables, alloc, host, grants, slug.as_str())? else {
        return Ok(None);
    };
    if is_of_branch(&version, branch) {
        Ok(Some(version.slug))
    } else {
        Ok(None)
    }
}

/// Whether the name stands for a version; `latest` and `stable` say whether each alias does.
fn stands<S: Alter>(
    tables: &mut Tables<S>,
    alloc: Global,
    host: &HostName,
    grants: &[GrantRow],
    latest: bool,
    stable: bool,
    name: &str,
) -> Result<bool, Refusal>
    ensures asks { LooksAtRecords S.Store tables.old tables.new result }
    ensures value { AnswersBy S.Store tables.old tables.new result
        (λ l yes. yes ≡ stands_by (versions_at host.now l) grants.now latest stable name.now) }
{
    let seen = seen_version(tables, alloc, host, grants, name)?;
    Ok(seen.is_some() || is_standing_alias(name, latest, stable))
}

/// `latest`, else `stable`, each if it stands for a version.
fn default_alias<S: Alter>(
    tables: &mut Tables<S>,
    alloc: Global,
    host: &HostName,
    grants: &[GrantRow],
    latest: bool,
    stable: bool,
) -> Result<Option<Slug>, Refusal>
    ensures asks { LooksAtRecords S.Store tables.old tables.new result }
    ensures value { AnswersBy S.Store tables.old tables.new result (λ l name. name
        ≡ default_of (stands_by (versions_at host.now l) grants.now latest stable) []) }
{
    if stands(tables, alloc, host, grants, latest, stable, "latest")? {
        return Ok(Some(alias_slug(alloc, "latest")?));
    }
    if stands(tables, alloc, host, grants, latest, stable, "stable")? {
        return Ok(Some(alias_slug(alloc, "stable")?));
    }
    Ok(None)
}

/// The first default that stands for a version, else an alias.
fn default_with<S: Alter>(
    tables: &mut Tables<S>,
    alloc: Global,
    host: &HostName,
    grants: &[GrantRow],
    picks: &[DefaultRow],
    latest: bool,
    stable: bool,
) -> Result<Option<Slug>, Refusal>
    ensures asks { LooksAtRecords S.Store tables.old tables.new result }
    ensures value { AnswersBy S.Store tables.old tables.new result (λ l name. name
        ≡ default_of (stands_by (versions_at host.now l) grants.now latest stable)
        (map (λ d. d.name) picks.now)) }
{
    for pick in picks {
        if stands(
            tables,
            alloc,
            host,
            grants,
            latest,
            stable,
            pick.name.as_str(),
        )? {
            return Ok(Some(pick.name.try_copy(alloc)?));
        }
    }
    default_alias(tables, alloc, host, grants, latest, stable)
}

/// The default; `latest` and `stable` say whether each alias stands for a version.
fn default_name<S: Alter>(
    tables: &mut Tables<S>,
    alloc: Global,
    host: &HostName,
    grants: &[GrantRow],
    latest: bool,
    stable: bool,
) -> Result<Option<Slug>, Refusal>
    ensures asks { LooksAtRecords S.Store tables.old tables.new result }
    ensures value { AnswersBy S.Store tables.old tables.new result (λ l name. name
        ≡ default_of (stands_by (versions_at host.now l) grants.now latest stable)
        (defaults_at host.now l)) }
{
    let picks = rows_of::<S, DefaultRow>(tables, alloc, host)?;
    default_with(
        tables,
        alloc,
        host,
        grants,
        picks.as_slice(),
        latest,
        stable,
    )
}

/// The names of a caller who has these grants, where `stable` stands for this version.
pub fn names_with_grants<S: Alter>(
    tables: &mut Tables<S>,
    alloc: Global,
    host: &HostName,
    branch: &RefName,
    grants: &[GrantRow],
    stable: Option<Version>,
) -> Result<Names, Refusal>
    ensures asks { LooksAtRecords S.Store tables.old tables.new result }
    ensures value { AnswersBy S.Store tables.old tables.new result (λ l names. names
        ≡ names_by (versions_at host.now l) grants.now branch.now (defaults_at host.now l)
        (option_map (λ v. v.slug) stable)) }
{
    let latest = latest_with(tables, alloc, host, branch, grants)?;
    let default = default_name(
        tables,
        alloc,
        host,
        grants,
        latest.is_some(),
        stable.is_some(),
    )?;
    Ok(Names {
        latest,
        stable: stable.map(|v| v.slug),
        default,
    })
}
