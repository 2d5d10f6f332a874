//! The checked texts of a documentation host, and the slug of a name.
#![tactic(auto)]

pub mod checked;
mod classes;
pub mod fault;
pub mod kinds;
pub mod lengths;
pub mod numbers;
pub mod slug;
pub mod text;

pub use checked::{Checked, Kind};
pub use classes::{all_no_control, lower_or_digit};
pub use fault::TextFault;
pub use kinds::{HostName, Lang, PagePath, RefName, Slug, Token};
pub use numbers::{read_u16, read_u32, read_u64};
pub use slug::slug_of;
pub use text::{Bytes, Text};
