// A tick's three steps: S3, the pending request, the due subscriptions. What a step may change goes by value or is lent, and the server takes them in
// this order. Every promise is an equation to the definition in the crate `model`.
#![tactic(auto)]

ghost use Rattle.std.specs.Prelude.{◌≡◌, ◌<◌, ◌≤◌, ◌∷◌};
ghost use Rattle.model.specs.Numbers.{max_frame, max_periodic};
ghost use Rattle.model.specs.Queue as Definition;
ghost use Rattle.uds.specs.Result.{result_of};
ghost use Rattle.uds.specs.Values.{table_of};
ghost use Rattle.queue.specs.View.{queue_in, step_in};
ghost use Rattle.state.specs.View.{pending_of};
ghost use Rattle.ticking.specs.View.{expired_of, due_of, sent_of, Lapses, Refreshes, Goes, Sends};

use config::Config;
use periodic::Subscriptions;
use queue::reply::Outbox;
use security::Security;
use state::apply::Said;
use state::{PendingRequest, SessionState};
use uds::clock::Instant;
use uds::nrc::Nrc;
use uds::result::Refusal;

const DEFAULT_SESSION: u8 = 1;

const MAX_FRAME: usize = 256;

// Why a due subscription ends the walk, and the error byte that comes with 8.
#[derive(Clone, Copy, PartialEq, Eq)]
pub struct Unsent {
    pub why: Refusal,
    pub err: u8,
}

// Another session than 1, and no request for longer than its S3; after a clock that went back no time has passed.
fn expired(config: &Config, session: SessionState, t: Instant) -> bool
    ensures { result ≡ expired_of config.now session t.0 }
{
    if session.session_type == DEFAULT_SESSION {
        return false;
    }
    let row = config::find_session(config, session.session_type);
    let silent = t.since(session.last_rx);
    silent.exceeds(config::s3(config, row))
}

// S3: session 1 again, no level held, and the seed is overwritten.
pub fn s3(config: &Config, session: SessionState, k: &mut Security, t: Instant) -> SessionState
    ensures { Lapses config.now session k.old t.0 result k.new }
{
    let lapsed = expired(config, session, t);
    security::settle(k, lapsed);
    if lapsed {
        return session.opened(DEFAULT_SESSION);
    }
    session
}

// A request is pending, and its deadline has come.
fn is_due(pending: PendingRequest, t: Instant) -> bool
    ensures { result ≡ due_of (pending_of pending) t.0 }
{
    pending.on && !t.is_before(pending.deadline)
}

// At its deadline a request becomes pending anew, and then 0x78 is queued: the new deadline stands also where that meets 3.
pub fn refreshed(
    config: &Config,
    session: u8,
    pending: PendingRequest,
    outbox: &mut Outbox,
    t: Instant,
) -> Said
    ensures heads { outbox.new.heads.ghost_name ≡ outbox.old.heads.ghost_name }
    ensures room { outbox.new.room.ghost_name ≡ outbox.old.room.ghost_name }
    ensures refreshes { Refreshes config.now session pending outbox.old.count outbox.old.heads.now outbox.old.room.now t.0 result.pending (result_of result.done) outbox.new.count outbox.new.heads.now outbox.new.room.now }
{
    if !is_due(pending, t) {
        return Said {
            pending,
            done: Ok(()),
        };
    }
    let anew = state::apply::awaiting(config, session, pending.dst, pending.sid, t);
    let done = outbox.negative(
        pending.dst,
        pending.sid,
        Nrc::REQUEST_CORRECTLY_RECEIVED_RESPONSE_PENDING,
    );
    Said {
        pending: anew,
        done,
    }
}

// A periodic frame, made where it will wait: 4 where it exceeds a frame.
fn send_value(outbox: &mut Outbox, to: u32, first: u8, value: &[u8]) -> Result<(), Refusal>
    ensures heads { outbox.new.heads.ghost_name ≡ outbox.old.heads.ghost_name }
    ensures room { outbox.new.room.ghost_name ≡ outbox.old.room.ghost_name }
    ensures step { step_in result outbox.new ≡ Definition.sent max_frame (queue_in outbox.old) to (first ∷ value.now) }
{
    let count = outbox.count;
    match queue::draft::extend(&mut *outbox.room, count, 0, value) {
        Some(len) => outbox.send(to, first, len),
        None => Err(Refusal::FrameTooLong),
    }
}

// One due entry: 8 where its value is an error, else its frame; it is advanced once that is queued.
fn send_entry(
    subs: &mut Subscriptions,
    count: u8,
    i: usize,
    outbox: &mut Outbox,
    t: Instant,
    values: &[u32],
    pool: &[u8],
) -> Result<(), Unsent>
    requires { (count ≤ max_periodic) × (i < count) }
    ensures heads { outbox.new.heads.ghost_name ≡ outbox.old.heads.ghost_name }
    ensures room { outbox.new.room.ghost_name ≡ outbox.old.room.ghost_name }
    ensures goes { Goes subs.old i outbox.old.count outbox.old.heads.now outbox.old.room.now t.0 (table_of values.now pool.now) (sent_of result outbox.new) subs.new outbox.new.heads.now outbox.new.room.now }
{
    let e = periodic::entry_at(subs, i);
    let value = match uds::values::value(values, pool, e.identifier, MAX_FRAME) {
        Ok(place) => place,
        Err(err) => {
            return Err(Unsent {
                why: Refusal::ValueError,
                err,
            });
        }
    };
    let end = value.start + value.len;
    let first = (e.identifier % 256) as u8;
    match send_value(outbox, e.client, first, &pool[value.start..end]) {
        Err(why) => Err(Unsent { why, err: 0 }),
        Ok(()) => {
            periodic::advance(subs, count, i, t);
            Ok(())
        }
    }
}

// The due entries in table order. Sending changes an entry alone, so each is judged as it stood at first. A refusal ends the walk, and the rest
// stand. A count that no table has sends nothing.
#[tactic(auto, using(crate::proofs::Walk::turns))]
pub fn send_due(
    subs: &mut Subscriptions,
    count: u8,
    outbox: &mut Outbox,
    t: Instant,
    values: &[u32],
    pool: &[u8],
) -> Result<(), Unsent>
    ensures heads { outbox.new.heads.ghost_name ≡ outbox.old.heads.ghost_name }
    ensures room { outbox.new.room.ghost_name ≡ outbox.old.room.ghost_name }
    ensures sends { Sends subs.old count outbox.old.count outbox.old.heads.now outbox.old.room.now t.0 (table_of values.now pool.now) (sent_of result outbox.new) subs.new outbox.new.heads.now outbox.new.room.now }
{
    if periodic::MAX_PERIODIC < count {
        return Ok(());
    }
    for i in 0..usize::from(count) {
        if !periodic::due(subs, count, i, t) {
            continue;
        }
        send_entry(subs, count, i, outbox, t, values, pool)?;
    }
    Ok(())
}
