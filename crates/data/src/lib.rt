// Data by identifier, read and written: 22, 2E.
#![tactic(auto)]

pub mod service22;
pub mod service2E;
