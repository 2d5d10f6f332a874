//! What holds of all names. The laws are the contract of a function that does nothing.

ghost use Rattle.std.specs.Prelude.{◌↔◌, ℕ, List, IsTrue, MatchOption};
ghost use Rattle.dh_versions.specs.Release.{Numbers, IsSemVer, is_semver_name, IsReleaseOf, release_of};
ghost use Rattle.dh_versions.specs.declared.version.Kind.{Kind};

/// The definitions that compute agree with the grammar of Semantic Versioning 2.0.0 on every name.
pub fn releases_by_grammar()
    ensures semver { (name : List ℕ) → IsTrue (is_semver_name name) ↔ IsSemVer name }
    ensures release { (kind : Kind) (name : List ℕ) → MatchOption (release_of kind name)
        ((n : Numbers) → IsReleaseOf kind name n → ⊥)
        (IsReleaseOf kind name) }
{}
