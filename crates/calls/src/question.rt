// A question: which act the same request would ask. It only reads.
ghost use Rattle.std.specs.Prelude.{◌≡◌};
ghost use Rattle.model.specs.Numbers.{max_frame};
ghost use Rattle.model.specs.Question as Model;
ghost use Rattle.model.specs.Service.{no_act};
ghost use Rattle.state.specs.View.{state_of};
ghost use Rattle.calls.specs.View.{inbound_of, asked_of};

use config::Config;
use periodic::Subscriptions;
use queue::{Heads, Room};
use security::Security;
use service::{Act, Request};
use state::State;
use state::valid::is_valid;
use uds::clock::Instant;
use uds::result::{DONE, Refusal};

// The act, none where the request would ask none, and 10, 6 or 2 where the request would be refused by it; else 0, whatever its reply would meet. It goes to C, so it
// holds a number.
#[repr(C)]
#[derive(Clone, Copy)]
pub struct Asked {
    pub act: Act,
    pub result: u8,
}

fn nothing(res: u8) -> Asked
    ensures { asked_of result ≡ record { result = res; act = no_act } }
{
    Asked {
        act: Act::none(),
        result: res,
    }
}

pub fn question<'a>(
    config: &'a Config,
    s: State,
    k: &'a Security,
    subs: &'a Subscriptions,
    heads: &'a Heads,
    room: &'a Room,
    t: Instant,
    src: u32,
    dst: u32,
    frame: &'a [u8],
) -> Asked
    ensures { asked_of result ≡ Model.question max_frame (state_of config.now s k.now subs.now heads.now room.now) (inbound_of t.0 src dst frame.now) }
{
    let valid = is_valid(config, s, k, subs, heads, room);
    if let Err(why) = entry::barred(valid, t) {
        return nothing(u8::from(why));
    }
    let Some(_) = entry::addressed(config, dst) else {
        return nothing(DONE);
    };
    let on = s.pending.on;
    if entry::misfits(on, frame) {
        return nothing(Refusal::FrameLength as u8);
    }
    if on {
        return nothing(DONE);
    }
    // No question looks at what is handed in for an act, nor at the value table.
    let request = Request {
        config,
        session: s.session.session_type,
        level: s.session.level,
        subscriptions: s.subscriptions,
        frames: s.frames,
        src,
        t,
        payload: uds::frame::payload(frame),
        err: 0,
        given: &[],
        values: &[],
        pool: &[],
    };
    Asked {
        act: asking::asked(uds::frame::sid(frame), &request, k),
        result: DONE,
    }
}
