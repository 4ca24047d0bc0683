// Periodic transmission: 2A.
#![tactic(auto)]

pub mod service2A;
