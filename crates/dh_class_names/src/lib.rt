//! What `latest`, `stable` and the default are for each class of callers, made of the records of one host.
#![tactic(auto)]

pub mod class_names;
mod highest;
mod laws;
mod lookups;
mod naming;

pub use class_names::ClassNames;
pub use highest::with_opened;
pub use laws::rows_of_host;
pub use lookups::is_seen;
pub use naming::{alias_slug, branch_slug, is_of_branch, is_standing_alias, names_by_class};
