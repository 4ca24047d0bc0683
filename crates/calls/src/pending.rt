// Complete and fail: the final answer of a pending request, which ends even if 3 follows.
ghost use Rattle.std.specs.Prelude.{◌≡◌};
ghost use Rattle.model.specs.Numbers.{max_frame};
ghost use Rattle.model.specs.Pending as Model;
ghost use Rattle.model.specs.Queue as Queue;
ghost use Rattle.uds.specs.Result.{result_of};
ghost use Rattle.queue.specs.View.{queue_of, mode_of, reply_of};
ghost use Rattle.state.specs.View.{state_of, step_of};
ghost use Rattle.calls.specs.Pending.{ending, Ends};

use config::Config;
use periodic::Subscriptions;
use queue::reply::{Asker, Outbox, Reply};
use queue::{Heads, Room};
use security::Security;
use state::apply::Answer;
use state::valid::is_valid;
use state::{PendingRequest, State};
use uds::clock::Instant;
use uds::result::{Refusal, number};

// No code is withheld after a request that was not functional, and so is none of a failure.
const PHYSICAL: bool = false;

// What both ask first: 10, then 6, then 1 where no request is pending.
fn barred(valid: bool, on: bool, t: Instant) -> Result<(), Refusal>
    ensures { result_of result ≡ ending valid on t.0 }
{
    entry::barred(valid, t)?;
    if on { Ok(()) } else { Err(Refusal::NotPending) }
}

// Nothing is pending any more, and so many frames wait.
fn ended(s: State, frames: u8) -> State
    ensures { Ends s frames result }
{
    State {
        pending: PendingRequest {
            on: false,
            ..s.pending
        },
        frames,
        ..s
    }
}

// What an outbox answered, and how many frames wait in it then.
#[derive(Clone, Copy)]
struct Queued {
    done: Result<(), Refusal>,
    count: u8,
}

// What is said to the one who waits, queued.
fn answered(frames: u8, heads: &mut Heads, room: &mut Room, asker: Asker, reply: Reply) -> Queued
    ensures { record { result = result_of result.done; queue = queue_of result.count heads.new room.new } ≡ Queue.answered max_frame (mode_of asker.functional) (queue_of frames heads.old room.old) asker.to asker.sid (reply_of reply frames room.old) }
{
    let mut outbox = Outbox {
        count: frames,
        heads,
        room,
    };
    let done = outbox.answer(asker, reply);
    Queued {
        done,
        count: outbox.count,
    }
}

// The answer that the pending request waited for.
pub fn complete(
    config: &Config,
    s: State,
    k: &Security,
    subs: &Subscriptions,
    heads: &mut Heads,
    room: &mut Room,
    t: Instant,
    payload: &[u8],
) -> Answer
    ensures { step_of config.now result k.now subs.now heads.new room.new ≡ Model.complete max_frame (state_of config.now s k.now subs.now heads.old room.old) t.0 payload.now }
{
    let pending = s.pending;
    let valid = is_valid(config, s, k, subs, heads, room);
    if let Err(why) = barred(valid, pending.on, t) {
        return Answer {
            state: s,
            result: u8::from(why),
        };
    }
    let asker = Asker {
        functional: s.functional,
        to: pending.dst,
        sid: pending.sid,
    };
    let made = queue::draft::extend(room, s.frames, 0, payload);
    let reply = queue::draft::said(made);
    let p = answered(s.frames, heads, room, asker, reply);
    Answer {
        state: ended(s, p.count),
        result: number(p.done),
    }
}

// The code that ends the pending request, sent however that was addressed; 0x78 starts nothing.
pub fn fail(
    config: &Config,
    s: State,
    k: &Security,
    subs: &Subscriptions,
    heads: &mut Heads,
    room: &mut Room,
    t: Instant,
    code: u8,
) -> Answer
    ensures { step_of config.now result k.now subs.now heads.new room.new ≡ Model.fail max_frame (state_of config.now s k.now subs.now heads.old room.old) t.0 code }
{
    let pending = s.pending;
    let valid = is_valid(config, s, k, subs, heads, room);
    if let Err(why) = barred(valid, pending.on, t) {
        return Answer {
            state: s,
            result: u8::from(why),
        };
    }
    let asker = Asker {
        functional: PHYSICAL,
        to: pending.dst,
        sid: pending.sid,
    };
    let p = answered(s.frames, heads, room, asker, Reply::Negative(code));
    Answer {
        state: ended(s, p.count),
        result: number(p.done),
    }
}
