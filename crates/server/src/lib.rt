// The server by value: the state together with all that its calls are lent. Each call lends its own arrays to the lent door (crate `calls`).
#![tactic(auto)]

pub mod drain;
pub mod fresh;
pub mod pending;
pub mod request;
pub mod tick;
