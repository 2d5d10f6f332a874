//! The most bytes of each kind of text.

/// The most bytes of the name of a host.
pub const MOST_HOST_BYTES: usize = 253;

/// The most bytes of a language.
pub const MOST_LANG_BYTES: usize = 16;

/// The most bytes of the name of a branch or a tag.
pub const MOST_REF_BYTES: usize = 255;

/// The most bytes of the slug of a version.
pub const MOST_SLUG_BYTES: usize = 128;

/// The most bytes of the path of a page.
pub const MOST_PATH_BYTES: usize = 512;

/// The most bytes of a pass or a key.
pub const MOST_TOKEN_BYTES: usize = 64;
