// The lower crate: time, codes, configuration, frame rules and values. Whoever stands above it cites only the promises made here,
// each of which is an equation to the definition in the crate `model`.
#![tactic(auto)]

pub mod clock;
pub mod frame;
pub mod nrc;
pub mod result;
pub mod rows;
pub mod table;
pub mod values;
