//! The names of one class.

use dh_aliases::Names;
use dh_paths::Token;

/// What three names are for one class of callers.
#[derive(Drop)]
pub struct ClassNames {
    /// The pass of the class, or none.
    pub class: Option<Token>,
    pub names: Names,
}
