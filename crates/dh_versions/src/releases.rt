//! Release numbers.

ghost use Rattle.std.specs.Prelude.{◌≡◌, ◌↔◌, IfOk, OnErr, IsTrue, MatchOption, option_map};
ghost use Rattle.semver.specs.Identifiers.{parts_of};
ghost use Rattle.dh_versions.specs.Release.{IsSemVer, IsReleaseOf, Numbers, without_v, semver_parts, is_semver_name, release_of};

use crate::version::Kind;
use dh_texts::RefName;
use semver::{Error, Version};
use std::alloc::{AllocError, Global};

fn without_mark(name: &str) -> &str
    ensures { result.now ≡ without_v name.now }
{
    match name.strip_prefix('v') {
        Some(rest) => rest,
        None => name,
    }
}

/// The version that a name stands for after at most one leading `v`; none where it is not SemVer.
fn version_in(alloc: Global, name: &str) -> Result<Option<Version>, AllocError>
    ensures { IfOk result (λ version. option_map parts_of version ≡ semver_parts name.now) }
{
    match Version::parse(alloc, without_mark(name)) {
        Ok(version) => Ok(Some(version)),
        Err(error) if error == Error::from(AllocError) => Err(AllocError),
        Err(_) => Ok(None),
    }
}

/// Whether a name is SemVer: after at most one leading `v`, a version of Semantic Versioning 2.0.0 whose three numbers fit 64 bits.
pub fn is_semver(alloc: Global, name: &RefName) -> Result<bool, AllocError>
    ensures semver { IfOk result (λ yes. IsTrue yes ↔ IsSemVer name.now) }
    ensures value { IfOk result (λ yes. yes ≡ is_semver_name name.now) }
{
    Ok(version_in(alloc, name.as_str())?.is_some())
}

/// The major, minor and patch number of a release: a tag that is SemVer without a pre-release. None for every other name.
pub fn release(
    alloc: Global,
    name: &RefName,
    kind: Kind,
) -> Result<Option<(u64, u64, u64)>, AllocError>
    ensures release { IfOk result (λ numbers. MatchOption numbers
        ((n : Numbers) → IsReleaseOf kind name.now n → ⊥)
        (IsReleaseOf kind name.now)) }
    ensures value { IfOk result (λ numbers. numbers ≡ release_of kind name.now) }
    ensures memory { OnErr result (kind ≡ Kind.Tag) }
{
    if kind == Kind::Branch {
        return Ok(None);
    }
    match version_in(alloc, name.as_str())? {
        Some(version) if version.pre.is_empty() => {
            Ok(Some((version.major, version.minor, version.patch)))
        }
        _ => Ok(None),
    }
}
