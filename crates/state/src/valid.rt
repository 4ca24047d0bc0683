// Whether a state, with what is lent beside it, keeps the numbers. Every call asks this first.
ghost use Rattle.std.specs.Prelude.{◌≡◌};
ghost use Rattle.model.specs.Numbers.{max_frame};
ghost use Rattle.model.specs.State as Model;
ghost use Rattle.state.specs.View.{pending_of, state_of};

use super::{PendingRequest, State};
use config::Config;
use periodic::Subscriptions;
use queue::{Heads, Room};
use security::Security;

impl PendingRequest {
    // A pending request that is not there has no moment to test.
    pub fn is_valid(self) -> bool
        ensures { result ≡ Model.pending_valid (pending_of self) }
    {
        !self.on || self.deadline.is_valid()
    }
}

// The state is valid: all that it holds, and all that is lent beside it.
pub fn is_valid(
    config: &Config,
    s: State,
    k: &Security,
    subs: &Subscriptions,
    heads: &Heads,
    room: &Room,
) -> bool
    ensures { result ≡ Model.valid max_frame (state_of config.now s k.now subs.now heads.now room.now) }
{
    config::within(config)
        && s.session.last_rx.is_valid()
        && security::is_valid(k)
        && periodic::subscriptions_valid(subs, s.subscriptions)
        && s.pending.is_valid()
        && queue::drain::frames_valid(s.frames, heads, room)
}
