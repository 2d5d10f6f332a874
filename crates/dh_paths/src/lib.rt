//! Targets, addresses and escapes, over the checked texts.
#![tactic(auto)]

pub mod address;
pub mod escape;
pub mod host;
mod laws;
pub mod place;
pub mod target;

pub use address::{rest_after, split};
pub use dh_texts::{
    Bytes, HostName, Lang, PagePath, RefName, Slug, Text, TextFault, Token, all_no_control, slug_of,
};
pub use escape::{encode_path, same_path};
pub use host::{host_name, host_part};
pub use laws::{host_part_is_name_and_port, target_is_its_parts};
pub use place::Split;
pub use target::Target;
