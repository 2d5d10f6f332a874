//! The text of `/robots.txt`.

ghost use Rattle.std.specs.Prelude.{◌≡◌, ℕ, List, ◌∷◌, [], ◌++◌, IfOk, OnOk, map, string_bytes};
ghost use Rattle.dh_reply.specs.System as spec;
ghost use Rattle.dh_reply.specs.System.{disallow, disallowed, lines_text, or_nothing};

use crate::make::joined;
use dh_texts::{Lang, Slug};
use dh_versions::Version;
use std::alloc::{AllocError, Global};

/// Writes the line that leaves out a version in a language.
fn put_line(out: &mut String, slug: &str, lang: &str) -> Result<(), AllocError>
    ensures { OnOk result (string_bytes out.new
        ≡ string_bytes out.old ++ (disallow slug.now lang.now ++ 10 ∷ [])) }
{
    writeln!(out, "Disallow: /{lang}/{slug}/")?;
    Ok(())
}

/// Writes the lines for a version, one for each language.
fn put_version(out: &mut String, langs: &[Lang], slug: &Slug) -> Result<(), AllocError>
    ensures { OnOk result (string_bytes out.new
        ≡ string_bytes out.old ++ lines_text (map (disallow slug.now) langs.now)) }
{
    for lang in langs {
        put_line(out, slug.as_str(), lang.as_str())?;
    }
    Ok(())
}

/// The lines for all hidden versions.
fn hidden_lines(alloc: Global, langs: &[Lang], versions: &[Version]) -> Result<String, AllocError>
    ensures { IfOk result
        (λ text. string_bytes text ≡ lines_text (disallowed langs.now versions.now)) }
{
    let mut out = String::new(alloc);
    for version in versions {
        if version.hidden {
            put_version(&mut out, langs, &version.slug)?;
        }
    }
    Ok(out)
}

/// The text, or where it is empty the line that leaves out nothing.
fn text_or_nothing(text: &str) -> &str
    ensures { (lines : List (List ℕ)) → text.now ≡ lines_text lines
        → result.now ≡ lines_text (or_nothing lines) }
{
    if text.is_empty() { "Disallow:\n" } else { text }
}

/// The text of `/robots.txt`: each hidden version is left out, in each language.
#[tactic(auto, unfolding(crate::specs::System::robots_text))]
pub fn robots_text(
    alloc: Global,
    langs: &[Lang],
    versions: &[Version],
) -> Result<String, AllocError>
    ensures { IfOk result
        (λ text. string_bytes text ≡ spec.robots_text langs.now versions.now) }
{
    let lines = hidden_lines(alloc, langs, versions)?;
    joined(alloc, "User-agent: *\n", text_or_nothing(lines.as_str()))
}
