// Drain: the waiting frames as records in a lent buffer.
ghost use Rattle.std.specs.Prelude.{◌≡◌};
ghost use Rattle.model.specs.Numbers.{max_frame};
ghost use Rattle.model.specs.Drain as Model;
ghost use Rattle.state.specs.View.{state_of};
ghost use Rattle.calls.specs.View.{drain_of};

use config::Config;
use periodic::Subscriptions;
use queue::{Heads, Room};
use security::Security;
use state::State;
use state::valid::is_valid;
use uds::result::Refusal;

// The state that is left, the result, and how many frames were written. It goes to C, so it holds a number.
#[repr(C)]
#[derive(Clone, Copy)]
pub struct Drained {
    pub state: State,
    pub result: u8,
    pub frames: u8,
}

// 10 where the state is not valid, then 5 where the records exceed the buffer: both leave all as it was.
pub fn drain<'a>(
    config: &'a Config,
    s: State,
    k: &'a Security,
    subs: &'a Subscriptions,
    heads: &'a Heads,
    room: &'a Room,
    out: &mut [u8],
) -> Drained
    ensures { drain_of config.now result k.now subs.now heads.now room.now out.new ≡ Model.drain max_frame (state_of config.now s k.now subs.now heads.now room.now) out.old }
{
    if !is_valid(config, s, k, subs, heads, room) {
        return Drained {
            state: s,
            result: Refusal::StateNotValid as u8,
            frames: 0,
        };
    }
    let d = queue::drain::drain(s.frames, heads, room, out);
    Drained {
        state: State {
            frames: d.count,
            ..s
        },
        result: d.result,
        frames: d.frames,
    }
}
