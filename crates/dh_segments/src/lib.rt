//! The first segment of a path, and which redirects may lead away from paths with a given first segment.
#![tactic(auto)]

mod laws;
mod segments;

pub use laws::{first_is_tried, others_lead_nowhere};
pub use segments::{first_segment, segment_of};
