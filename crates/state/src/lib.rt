// What a server holds by value: the session, the pending request, how the last request was addressed, and how much there is of what is lent
// beside it. The configuration, the security record, the subscriptions and the waiting frames are lent.
#![tactic(auto)]

ghost use Rattle.std.specs.Prelude.{◌≡◌, List, ℕ};
ghost use Rattle.std.proofs.Math.Option.{none};
ghost use Rattle.model.specs.State as Model;
ghost use Rattle.security.specs.View.{security_of};
ghost use Rattle.config.specs.View.{config_of};
ghost use Rattle.state.specs.View.{session_of, pending_of, state_of};

pub mod apply;
pub mod valid;

use periodic::PeriodicState;
use uds::clock::Instant;

// The session, the held security level, and when the last request came.
#[repr(C)]
#[derive(Clone, Copy, PartialEq, Eq)]
pub struct SessionState {
    pub last_rx: Instant,
    pub session_type: u8,
    pub level: u8,
}

impl SessionState {
    pub fn new() -> SessionState
        ensures { session_of result ≡ Model.fresh_session }
    {
        SessionState {
            last_rx: Instant::ZERO,
            session_type: 1,
            level: 0,
        }
    }

    // Another session: no level is held in it yet.
    pub fn opened(self, session_type: u8) -> SessionState
        ensures { session_of result ≡ Model.opened (session_of self) session_type }
    {
        SessionState {
            last_rx: self.last_rx,
            session_type,
            ..SessionState::new()
        }
    }
}

// A request that was answered 0x78, if one was: whom to answer, for which service, and when 0x78 is due again. It says by a flag
// whether there is one, since C hands the state by value and an exported function takes no Option.
#[repr(C)]
#[derive(Clone, Copy, PartialEq, Eq)]
pub struct PendingRequest {
    pub deadline: Instant,
    pub dst: u32,
    pub sid: u8,
    pub on: bool,
}

impl PendingRequest {
    // None is pending.
    pub fn new() -> PendingRequest
        ensures { pending_of result ≡ none }
    {
        PendingRequest {
            deadline: Instant::ZERO,
            dst: 0,
            sid: 0,
            on: false,
        }
    }
}

// Forty bytes. How many subscriptions stand and how many frames wait is counted here; they themselves are lent.
#[repr(C)]
#[derive(Clone, Copy, PartialEq, Eq)]
pub struct State {
    pub session: SessionState,
    pub pending: PendingRequest,
    pub functional: bool,
    pub subscriptions: u8,
    pub frames: u8,
}

impl State {
    // The fresh server of a configuration, beside a fresh security record, whatever stands in all else that is lent.
    pub fn new() -> State
        ensures { (config k subs heads room : List ℕ) → security_of k ≡ Model.fresh_security → state_of config result k subs heads room ≡ Model.fresh_state (config_of config) }
    {
        State {
            session: SessionState::new(),
            pending: PendingRequest::new(),
            functional: false,
            subscriptions: PeriodicState::new().count,
            frames: 0,
        }
    }
}
