//! Records in a file: making, opening and closing a file, and what is wrong with one that cannot be opened.
#![tactic(auto)]

mod fault;
mod files;
mod looking;

pub use fault::FileFault;
pub use files::{FileDesk, close_desk, init_file, migrate_file, open_desk};
