// The calls by the lent door for callers in Rust or C, so that each can be run and measured. A slice passes as its first element and
// its length.
#![tactic(auto)]

ghost use Rattle.std.specs.Prelude.{◌≡◌};
ghost use Rattle.model.specs.Numbers.{max_frame};
ghost use Rattle.model.specs.Request as Request;
ghost use Rattle.model.specs.Question as Question;
ghost use Rattle.model.specs.Tick as Tick;
ghost use Rattle.model.specs.Pending as Pending;
ghost use Rattle.model.specs.Drain as Drain;
ghost use Rattle.uds.specs.Values.{table_of};
ghost use Rattle.state.specs.View.{state_of, step_of};
ghost use Rattle.calls.specs.View.{inbound_of, asked_of, tick_of, drain_of};
ghost use Rattle.calls.specs.Request.{request_of, answer_of};

use calls::drain::Drained;
use calls::question::Asked;
use calls::request::Answered;
use calls::tick::Ticked;
use config::Config;
use periodic::Subscriptions;
use queue::{Heads, Room};
use security::Security;
use state::State;
use state::apply::Answer;
use uds::clock::Instant;

#[unsafe(no_mangle)]
pub extern "C" fn bench_server_request(
    config: &Config,
    s: State,
    k: &mut Security,
    subs: &mut Subscriptions,
    heads: &mut Heads,
    room: &mut Room,
    t: Instant,
    src: u32,
    dst: u32,
    frame: &[u8],
    err: u8,
    given: &[u8],
    values: &[u32],
    pool: &[u8],
) -> Answered
    ensures { answer_of config.now result k.new subs.new heads.new room.new ≡ Request.request max_frame (state_of config.now s k.old subs.old heads.old room.old) (request_of t.0 src dst frame.now err given.now values.now pool.now) }
{
    calls::request::request(
        config, s, k, subs, heads, room, t, src, dst, frame, err, given, values, pool,
    )
}

#[unsafe(no_mangle)]
pub extern "C" fn bench_server_question<'a>(
    config: &'a Config,
    s: State,
    k: &'a Security,
    subs: &'a Subscriptions,
    heads: &'a Heads,
    room: &'a Room,
    t: Instant,
    src: u32,
    dst: u32,
    frame: &'a [u8],
) -> Asked
    ensures { asked_of result ≡ Question.question max_frame (state_of config.now s k.now subs.now heads.now room.now) (inbound_of t.0 src dst frame.now) }
{
    calls::question::question(config, s, k, subs, heads, room, t, src, dst, frame)
}

#[unsafe(no_mangle)]
pub extern "C" fn bench_server_tick(
    config: &Config,
    s: State,
    k: &mut Security,
    subs: &mut Subscriptions,
    heads: &mut Heads,
    room: &mut Room,
    t: Instant,
    values: &[u32],
    pool: &[u8],
) -> Ticked
    ensures { tick_of config.now result k.new subs.new heads.new room.new ≡ Tick.tick max_frame (state_of config.now s k.old subs.old heads.old room.old) t.0 (table_of values.now pool.now) }
{
    calls::tick::tick(config, s, k, subs, heads, room, t, values, pool)
}

#[unsafe(no_mangle)]
pub extern "C" fn bench_server_complete(
    config: &Config,
    s: State,
    k: &Security,
    subs: &Subscriptions,
    heads: &mut Heads,
    room: &mut Room,
    t: Instant,
    payload: &[u8],
) -> Answer
    ensures { step_of config.now result k.now subs.now heads.new room.new ≡ Pending.complete max_frame (state_of config.now s k.now subs.now heads.old room.old) t.0 payload.now }
{
    calls::pending::complete(config, s, k, subs, heads, room, t, payload)
}

#[unsafe(no_mangle)]
pub extern "C" fn bench_server_fail(
    config: &Config,
    s: State,
    k: &Security,
    subs: &Subscriptions,
    heads: &mut Heads,
    room: &mut Room,
    t: Instant,
    code: u8,
) -> Answer
    ensures { step_of config.now result k.now subs.now heads.new room.new ≡ Pending.fail max_frame (state_of config.now s k.now subs.now heads.old room.old) t.0 code }
{
    calls::pending::fail(config, s, k, subs, heads, room, t, code)
}

#[unsafe(no_mangle)]
pub extern "C" fn bench_server_drain<'a>(
    config: &'a Config,
    s: State,
    k: &'a Security,
    subs: &'a Subscriptions,
    heads: &'a Heads,
    room: &'a Room,
    out: &mut [u8],
) -> Drained
    ensures { drain_of config.now result k.now subs.now heads.now room.now out.new ≡ Drain.drain max_frame (state_of config.now s k.now subs.now heads.now room.now) out.old }
{
    calls::drain::drain(config, s, k, subs, heads, room, out)
}
