// What a gear answers to the queries of part 102: its status, its levels and settings, who it is, and the walk through its types.
#![tactic(auto)]

pub mod bits;
pub mod heard;
pub mod lamp;
pub mod reply;
pub mod status;
pub mod told;
pub mod walk;
