//! Checks the texts of commands: gives them as values of their types, or refuses the first that is wrong.
//!
//! Nothing here knows a project or a store: what a command asks for is decided in the layers above.
#![tactic(auto)]

pub mod checked;
pub mod checking;
mod pages;
mod texts;

pub use checked::{
    CheckedImport, CheckedPage, CheckedPush, CheckedRedirect, CheckedRule, CheckedUpload,
    NewProject, ProjectSettings,
};
pub use checking::{CheckedChange, CheckedCommand, check};
