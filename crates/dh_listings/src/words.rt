//! What list words ask for.

use dh_texts::Text;

/// What a list word asks for. Its texts are unchecked: under a text that is no host's name there is no project.
#[derive(Drop)]
pub enum ListWord {
    /// The projects of all hosts.
    Projects,
    /// A list of the project under a host.
    OfProject {
        host: Text,
        list: ProjectList,
    },
    /// All that a caller sees of the project under a host.
    Seen {
        host: Text,
        /// The pass that he shows. A text that is no pass counts as none.
        pass: Option<Text>,
        /// When he looks, in seconds since 1970, where it is given.
        moment: Option<u64>,
    },
}

/// A list of one project. Under a text that is no version's slug, or no language, there are no pages.
#[derive(Drop)]
pub enum ProjectList {
    Langs,
    Versions,
    Defaults,
    Rules,
    Redirects,
    /// Passes, each with the slugs that it is granted.
    Passes,
    /// The pages of a version in a language.
    Pages { slug: Text, lang: Text },
}
