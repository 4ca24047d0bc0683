// A request: 10; 6; address; last_rx; busy; 2; service; session; the service's rule.
ghost use Rattle.std.specs.Prelude.{◌≡◌};
ghost use Rattle.model.specs.Tests.{pick};
ghost use Rattle.model.specs.Numbers.{max_frame};
ghost use Rattle.model.specs.Request as Model;
ghost use Rattle.state.specs.View.{state_of};
ghost use Rattle.model.specs.Service.{no_act};
ghost use Rattle.service.specs.Act.{act_of};
ghost use Rattle.service.specs.Seen.{Serves};
ghost use Rattle.dispatch.specs.Seen.{seen_in};
ghost use Rattle.calls.specs.Request.{wanted_by, Hears, request_of, answer_of};

use config::Config;
use periodic::Subscriptions;
use queue::reply::{Asker, Reply};
use queue::{Heads, Room};
use security::Security;
use service::{Act, Request, Wanted};
use state::apply::apply;
use state::valid::is_valid;
use state::{SessionState, State};
use uds::clock::Instant;
use uds::nrc::Nrc;
use uds::result::{DONE, Refusal};

// The state that is left, the result, and the act that was asked. It goes to C, so it holds a number.
#[repr(C)]
#[derive(Clone, Copy)]
pub struct Answered {
    pub state: State,
    pub result: u8,
    pub act: Act,
}

// Busy is said to the frame's destination, every other reply to its source.
fn reply_to(on: bool, src: u32, dst: u32) -> u32
    ensures { result ≡ pick on dst src }
{
    if on { dst } else { src }
}

// A request was received, and no more.
fn heard(s: State, t: Instant, functional: bool) -> State
    ensures { Hears s t.0 functional result }
{
    State {
        session: SessionState {
            last_rx: t,
            ..s.session
        },
        functional,
        ..s
    }
}

// Refused before the frame is looked at, or with nothing to do.
fn unasked(state: State, res: u8) -> Answered
    ensures { (result.state ≡ state) × (result.result ≡ res) × (act_of result.act ≡ no_act) }
{
    Answered {
        state,
        result: res,
        act: Act::none(),
    }
}

// Busy where a request is pending, said as a service would say it; else what the service wants.
fn wanted(
    on: bool,
    sid: u8,
    request: &Request,
    k: &mut Security,
    subs: &mut Subscriptions,
    room: &mut Room,
) -> Wanted
    ensures { Serves (wanted_by on sid) (seen_in request.now k.old subs.old) k.old subs.old request.now.frames room.old result k.new subs.new room.new }
{
    if on {
        return Wanted {
            effect: request.says(Reply::Always(Nrc::BUSY_REPEAT_REQUEST)),
            act: Act::none(),
        };
    }
    dispatch::guarded(sid, request, k, subs, room)
}

pub fn request(
    config: &Config,
    s: State,
    k: &mut Security,
    subs: &mut Subscriptions,
    heads: &mut Heads,
    room: &mut Room,
    t: Instant,
    src: u32,
    dst: u32,
    frame: &[u8],
    err: u8,
    given: &[u8],
    values: &[u32],
    pool: &[u8],
) -> Answered
    ensures { answer_of config.now result k.new subs.new heads.new room.new ≡ Model.request max_frame (state_of config.now s k.old subs.old heads.old room.old) (request_of t.0 src dst frame.now err given.now values.now pool.now) }
{
    let valid = is_valid(config, s, k, subs, heads, room);
    if let Err(why) = entry::barred(valid, t) {
        return unasked(s, u8::from(why));
    }
    let Some(functional) = entry::addressed(config, dst) else {
        return unasked(s, DONE);
    };
    let on = s.pending.on;
    if entry::misfits(on, frame) {
        return unasked(heard(s, t, functional), Refusal::FrameLength as u8);
    }
    let sid = uds::frame::sid(frame);
    let request = Request {
        config,
        session: s.session.session_type,
        level: s.session.level,
        subscriptions: s.subscriptions,
        frames: s.frames,
        src,
        t,
        payload: uds::frame::payload(frame),
        err,
        given,
        values,
        pool,
    };
    let w = wanted(on, sid, &request, k, subs, room);
    let asker = Asker {
        functional,
        to: reply_to(on, src, dst),
        sid,
    };
    let a = apply(config, s, k, heads, room, asker, t, w.effect);
    Answered {
        state: a.state,
        result: a.result,
        act: w.act,
    }
}
