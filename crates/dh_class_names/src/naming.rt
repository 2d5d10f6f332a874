//! The names of a class, and of all classes of a host.
ghost use Rattle.std.specs.Prelude.{◌≡◌, IfOk, List, [], map, Some, None, option_map};
ghost use Rattle.std.specs.Option.{option_copied};
ghost use Rattle.dh_texts.specs.SlugOfName.{slug_from};
ghost use Rattle.dh_world.specs.World.{Project};
ghost use Rattle.dh_world.specs.Seen.{default_of};
ghost use Rattle.dh_aliases.specs.Names as names;
ghost use Rattle.dh_records.specs.Constraints.{RiseBySlug};
ghost use Rattle.dh_records.specs.declared.records.GrantRow as grant_row;
ghost use Rattle.dh_class_names.specs.Rows as spec;
ghost use Rattle.dh_class_names.specs.Highest.{IsHighest, IsPublic};
ghost use Rattle.dh_class_names.specs.ClassNames.{AreRowsOf, class_names, classes_of};

use crate::class_names::ClassNames;
use crate::highest::{granted_top, public_top};
use crate::lookups::{grants_of, seen_under};
use dh_aliases::Names;
use dh_paths::{RefName, Slug, TextFault, Token, slug_of};
use dh_records::{DefaultRow, GrantRow, PassRow, VersionRow};
use dh_versions::{Kind, Version};
use std::alloc::{AllocError, Global};

/// The slug of the default branch, if its name has one.
pub fn branch_slug(alloc: Global, branch: &RefName) -> Result<Option<Slug>, AllocError>
    ensures { IfOk result (λ slug. slug ≡ slug_from branch.now) }
{
    match slug_of(alloc, branch) {
        Ok(slug) => Ok(Some(slug)),
        Err(TextFault::Memory) => Err(AllocError),
        Err(_) => Ok(None),
    }
}

/// Whether the version is the branch of that name.
pub fn is_of_branch(version: &Version, branch: &RefName) -> bool
    ensures { result ≡ names.is_of_branch branch.now version.now }
{
    version.kind == Kind::Branch && version.name.as_str() == branch.as_str()
}

/// The slug that `latest` stands for, to a caller who has these grants.
fn latest_for(
    alloc: Global,
    rows: &[VersionRow],
    grants: &[GrantRow],
    branch: &RefName,
) -> Result<Option<Slug>, AllocError>
    ensures { RiseBySlug rows.now
        → IfOk result (λ slug. slug ≡ spec.latest_by rows.now grants.now branch.now) }
{
    let Some(slug) = branch_slug(alloc, branch)? else {
        return Ok(None);
    };
    let Some(row) = seen_under(rows, grants, slug.as_str()) else {
        return Ok(None);
    };
    if is_of_branch(&row.version, branch) {
        Ok(Some(row.version.slug.try_copy(alloc)?))
    } else {
        Ok(None)
    }
}

/// Whether the name is an alias that stands for a version; `latest` and `stable` say whether each of them does.
pub fn is_standing_alias(name: &str, latest: bool, stable: bool) -> bool
    ensures { result ≡ spec.is_standing_alias latest stable name.now }
{
    match name {
        "latest" => latest,
        "stable" => stable,
        _ => false,
    }
}

/// Whether the name stands for a version; `latest` and `stable` say whether each alias does.
fn stands(rows: &[VersionRow], grants: &[GrantRow], latest: bool, stable: bool, name: &str) -> bool
    ensures { RiseBySlug rows.now
        → result ≡ spec.stands_by rows.now grants.now latest stable name.now }
{
    seen_under(rows, grants, name).is_some() || is_standing_alias(name, latest, stable)
}

/// The name of an alias as a slug.
pub fn alias_slug(alloc: Global, name: &str) -> Result<Slug, AllocError>
    ensures { IfOk result (λ slug. slug ≡ name.now) }
{
    match Slug::parse(alloc, name) {
        Ok(slug) => Ok(slug),
        Err(_) => Err(AllocError),
    }
}

/// `latest`, else `stable`, each if it stands for a version.
fn default_alias(
    alloc: Global,
    rows: &[VersionRow],
    grants: &[GrantRow],
    latest: bool,
    stable: bool,
) -> Result<Option<Slug>, AllocError>
    ensures { RiseBySlug rows.now → IfOk result (λ name. name
        ≡ default_of (spec.stands_by rows.now grants.now latest stable) []) }
{
    if stands(rows, grants, latest, stable, "latest") {
        return Ok(Some(alias_slug(alloc, "latest")?));
    }
    if stands(rows, grants, latest, stable, "stable") {
        return Ok(Some(alias_slug(alloc, "stable")?));
    }
    Ok(None)
}

/// The first default that stands for a version, else an alias.
fn default_for(
    alloc: Global,
    rows: &[VersionRow],
    grants: &[GrantRow],
    picks: &[DefaultRow],
    latest: bool,
    stable: bool,
) -> Result<Option<Slug>, AllocError>
    ensures { RiseBySlug rows.now → IfOk result (λ name. name ≡ default_of
        (spec.stands_by rows.now grants.now latest stable) (map (λ d. d.name) picks.now)) }
{
    for pick in picks {
        if stands(rows, grants, latest, stable, pick.name.as_str()) {
            return Ok(Some(pick.name.try_copy(alloc)?));
        }
    }
    default_alias(alloc, rows, grants, latest, stable)
}

fn slug_in(alloc: Global, version: Option<&Version>) -> Result<Option<Slug>, AllocError>
    ensures { IfOk result (λ slug. slug ≡ option_map (λ v. v.slug) (option_copied version.entry)) }
{
    match version {
        Some(version) => Ok(Some(version.slug.try_copy(alloc)?)),
        None => Ok(None),
    }
}

/// The names of a caller who has these grants, where `stable` stands for this version.
fn names_for(
    alloc: Global,
    branch: &RefName,
    rows: &[VersionRow],
    grants: &[GrantRow],
    picks: &[DefaultRow],
    stable: Option<&Version>,
) -> Result<Names, AllocError>
    ensures { RiseBySlug rows.now → IfOk result (λ names. names ≡ spec.names_by rows.now
        grants.now branch.now (map (λ d. d.name) picks.now)
        (option_map (λ v. v.slug) (option_copied stable.entry))) }
{
    let latest = latest_for(alloc, rows, grants, branch)?;
    let default = default_for(
        alloc,
        rows,
        grants,
        picks,
        latest.is_some(),
        stable.is_some(),
    )?;
    Ok(Names {
        latest,
        stable: slug_in(alloc, stable)?,
        default,
    })
}

/// The names of callers with no pass.
fn public_names(
    alloc: Global,
    branch: &RefName,
    rows: &[VersionRow],
    picks: &[DefaultRow],
    public: Option<&Version>,
) -> Result<ClassNames, AllocError>
    ensures { (p : Project) (held : List grant_row.GrantRow)
        → AreRowsOf p branch.now rows.now held picks.now
        → IsHighest (IsPublic rows.now) (option_copied public.entry)
        → IfOk result (λ names. names ≡ class_names p None) }
{
    Ok(ClassNames {
        class: None,
        names: names_for(alloc, branch, rows, &[], picks, public)?,
    })
}

/// The names of the callers of a pass.
fn pass_names(
    alloc: Global,
    branch: &RefName,
    rows: &[VersionRow],
    held: &[GrantRow],
    picks: &[DefaultRow],
    public: Option<&Version>,
    pass: &Token,
) -> Result<ClassNames, AllocError>
    ensures { (p : Project) → AreRowsOf p branch.now rows.now held.now picks.now
        → IsHighest (IsPublic rows.now) (option_copied public.entry)
        → IfOk result (λ names. names ≡ class_names p (Some pass.now)) }
{
    let grants = grants_of(held, pass);
    let stable = granted_top(alloc, rows, grants, public)?;
    Ok(ClassNames {
        class: Some(pass.try_copy(alloc)?),
        names: names_for(alloc, branch, rows, grants, picks, stable)?,
    })
}

/// The names of all classes of a project: of the callers with no pass, and then of each of these passes. Its
/// records stand in the order of their keys. A version is looked up by halves, so all classes together take
/// little more time than the records of the host are many; only the defaults that stand for no version are
/// asked for again by each pass.
pub fn names_by_class(
    alloc: Global,
    branch: &RefName,
    rows: &[VersionRow],
    held: &[GrantRow],
    picks: &[DefaultRow],
    passes: &[PassRow],
) -> Result<Vec<ClassNames>, AllocError>
    ensures { (p : Project) → AreRowsOf p branch.now rows.now held.now picks.now
        → IfOk result (λ all. all.items ≡ map (class_names p) (classes_of passes.now)) }
{
    let public = public_top(alloc, rows)?;
    let mut all = Vec::new(alloc);
    all.push(public_names(alloc, branch, rows, picks, public)?)?;
    for pass in passes {
        all.push(pass_names(alloc, branch, rows, held, picks, public, &pass.pass)?)?;
    }
    Ok(all)
}
