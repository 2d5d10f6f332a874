//! Who reads, and when.

use dh_texts::Token;

/// Who reads: a caller with a pass, or without one, at a moment. Whether the project has the pass, and whether
/// the pass is live at that moment, is looked up in the records.
#[derive(Drop)]
pub struct Caller {
    pub pass: Option<Token>,
    /// When he reads, in seconds since 1970.
    pub moment: u64,
}
