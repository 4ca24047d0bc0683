// Uploads and downloads: 34, 36, 37, 38.
#![tactic(auto)]

pub mod service34;
pub mod service36;
pub mod service37;
pub mod service38;
