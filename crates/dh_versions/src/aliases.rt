//! The versions that the names `stable` and `latest` stand for.

ghost use Rattle.std.specs.Prelude.{◌≡◌, IfOk, OnErr, IsTrue};
ghost use Rattle.dh_versions.specs.Aliases.{Rank, rank_of, rank_cmp, is_above, has_tag, stable_of, latest_of};

use crate::releases::release;
use crate::version::{Kind, Version};
use dh_texts::RefName;
use std::alloc::{AllocError, Global};

type Numbers = (u64, u64, u64);

/// Whether both are release tags and the first is above the second: by number, and at equal numbers by the bytes of the slug.
pub fn higher(alloc: Global, first: &Version, second: &Version) -> Result<bool, AllocError>
    ensures value { IfOk result (λ yes. yes ≡ is_above first.now second.now) }
    ensures memory { OnErr result (first.now.kind ≡ Kind.Tag) }
{
    let Some(numbers) = release(alloc, &first.name, first.kind)? else {
        return Ok(false);
    };
    let Some(others) = release(alloc, &second.name, second.kind)? else {
        return Ok(false);
    };
    Ok((numbers, first.slug.as_str()) > (others, second.slug.as_str()))
}

/// The place of the version that `stable` stands for: the first release that no other is above. None where no tag is a release.
pub fn stable(alloc: Global, versions: &[Version]) -> Result<Option<usize>, AllocError>
    ensures value { IfOk result (λ place. place ≡ stable_of versions.now) }
    ensures memory { OnErr result (IsTrue (has_tag versions.now)) }
{
    let mut best: Option<(usize, Numbers)> = None;
    for (i, version) in versions.iter().enumerate() {
        let Some(numbers) = release(alloc, &version.name, version.kind)? else {
            continue;
        };
        let leads = match best {
            Some((at, top)) => {
                (numbers, version.slug.as_str()) > (top, versions[at].slug.as_str())
            }
            None => true,
        };
        if leads {
            best = Some((i, numbers));
        }
    }
    Ok(best.map(|(place, _)| place))
}

/// The place of the version that `default`, the default branch, stands for: the first branch of that name.
pub fn latest(versions: &[Version], default: &RefName) -> Option<usize>
    ensures { result ≡ latest_of versions.now default.now }
{
    versions.iter().position(|version| version.kind == Kind::Branch
        && version.name.as_str() == default.as_str())
}
