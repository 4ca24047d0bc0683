// A service says what it wants, and one function carries it out.
ghost use Rattle.std.specs.Prelude.{◌≡◌, true, ◌&&◌, nat_eq};
ghost use Rattle.model.specs.Tests.{pick};
ghost use Rattle.uds.specs.Result.{result_of};
ghost use Rattle.state.specs.View.{pending_of, pends_of, awaited, RepliesIn, Applies};

use super::{PendingRequest, SessionState, State};
use config::Config;
use queue::reply::{Asker, Outbox, Reply};
use queue::{Heads, Room};
use security::Security;
use uds::clock::Instant;
use uds::result::{Refusal, number};

// What a service wants: the numbers that it may change, the reply, whether the seed is cleared, and whether the change waits until the reply is
// queued. What 27 does to the security record, and 2A to the subscriptions, stands in the lent words when it answers; neither waits.
#[derive(Clone, Copy)]
pub struct Effect {
    pub reply: Reply,
    pub session: u8,
    pub level: u8,
    pub subscriptions: u8,
    pub clears_seed: bool,
    pub waits: bool,
}

// The state that is left, and the result. It goes to C, so it holds a number.
#[repr(C)]
#[derive(Clone, Copy)]
pub struct Answer {
    pub state: State,
    pub result: u8,
}

// What a reply leaves: the pending request, and whether it found a place among the frames that wait.
#[derive(Clone, Copy)]
pub struct Said {
    pub pending: PendingRequest,
    pub done: Result<(), Refusal>,
}

fn pends(reply: Reply) -> bool
    ensures { result ≡ pends_of reply }
{
    matches!(reply, Reply::Pends)
}

// The request is pending: 0x78 is due again P2* of the session later, or at the clock's end.
pub fn awaiting(config: &Config, session: u8, to: u32, sid: u8, t: Instant) -> PendingRequest
    ensures { pending_of result ≡ awaited config.now session to sid t.0 }
{
    let row = config::find_session(config, session);
    PendingRequest {
        deadline: t.plus(config::p2_ext(config, row)),
        dst: to,
        sid,
        on: true,
    }
}

// A reply, to whom, for which service, when. One that pends makes the request pending first.
pub fn replied(
    config: &Config,
    session: u8,
    pending: PendingRequest,
    outbox: &mut Outbox,
    asker: Asker,
    t: Instant,
    reply: Reply,
) -> Said
    ensures heads { outbox.new.heads.ghost_name ≡ outbox.old.heads.ghost_name }
    ensures room { outbox.new.room.ghost_name ≡ outbox.old.room.ghost_name }
    ensures replies { RepliesIn config.now session pending outbox.old asker t.0 reply result outbox.new }
{
    let done = outbox.answer(asker, reply);
    Said {
        pending: if pends(reply) {
            awaiting(config, session, asker.to, asker.sid, t)
        } else {
            pending
        },
        done,
    }
}

fn chosen(first: bool, a: u8, b: u8) -> u8
    ensures { result ≡ pick first a b }
{
    if first {
        return a;
    }
    b
}

// A change that waits is made only where the reply met no result.
fn is_made(waits: bool, done: Result<(), Refusal>) -> bool
    ensures { result ≡ pick waits (nat_eq (result_of done) 0) true }
{
    !waits || done.is_ok()
}

// The change and the reply, or the reply and, if that was queued, the change. The state is built here alone.
fn changed(
    config: &Config,
    s: State,
    k: &mut Security,
    outbox: &mut Outbox,
    asker: Asker,
    t: Instant,
    e: Effect,
) -> Answer
    requires { s.frames ≡ outbox.old.count }
    ensures heads { outbox.new.heads.ghost_name ≡ outbox.old.heads.ghost_name }
    ensures room { outbox.new.room.ghost_name ≡ outbox.old.room.ghost_name }
    ensures applies { Applies config.now s k.old outbox.old.heads.now outbox.old.room.now asker.to asker.sid t.0 asker.functional e result k.new outbox.new.heads.now outbox.new.room.now }
{
    let session = s.session;
    let at = chosen(e.waits, session.session_type, e.session);
    let said = replied(config, at, s.pending, outbox, asker, t, e.reply);
    let made = is_made(e.waits, said.done);
    security::settle(k, made && e.clears_seed);
    Answer {
        state: State {
            session: SessionState {
                last_rx: t,
                session_type: chosen(made, e.session, session.session_type),
                level: chosen(made, e.level, session.level),
            },
            pending: said.pending,
            functional: asker.functional,
            subscriptions: chosen(made, e.subscriptions, s.subscriptions),
            frames: outbox.count,
        },
        result: number(said.done),
    }
}

// A request was received at `t`, and what a service wants is carried out.
pub fn apply(
    config: &Config,
    s: State,
    k: &mut Security,
    heads: &mut Heads,
    room: &mut Room,
    asker: Asker,
    t: Instant,
    e: Effect,
) -> Answer
    ensures { Applies config.now s k.old heads.old room.old asker.to asker.sid t.0 asker.functional e result k.new heads.new room.new }
{
    let mut outbox = Outbox {
        count: s.frames,
        heads,
        room,
    };
    changed(config, s, k, &mut outbox, asker, t, e)
}
