// Access: 27.
#![tactic(auto)]

pub mod service27;
