// The calls by the lent door: the state goes by value, and all else is lent: the configuration, the security record, the subscriptions, the heads of the
// frames that wait and the room that they wait in. Each is a parameter of its own, and what a call answers has numbers and no Result or Option, since C lends
// and is answered so: an exported function takes and returns no enum.
#![tactic(auto)]

pub mod drain;
pub mod pending;
pub mod question;
pub mod request;
pub mod tick;
