// Inputs, outputs and routines: 2F, 31.
#![tactic(auto)]

pub mod service2F;
pub mod service31;
