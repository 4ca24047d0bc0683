// Validity and effects for callers in Rust or C, so that both can be run and measured. What lies in an enum goes by number.
#![tactic(auto)]

ghost use Rattle.std.specs.Prelude.{◌≡◌};
ghost use Rattle.model.specs.Numbers.{max_frame};
ghost use Rattle.model.specs.State as Model;
ghost use Rattle.state.specs.View.{state_of, Applies};
ghost use Rattle.state_bench.specs.Wanted.{wanted};

use config::Config;
use periodic::Subscriptions;
use queue::reply::{Asker, Reply};
use queue::{Heads, Room};
use security::Security;
use state::State;
use state::apply::{Answer, Effect};
use uds::clock::Instant;

// The state, with all that is lent beside it, keeps the numbers.
#[unsafe(no_mangle)]
pub extern "C" fn bench_is_valid(
    config: &Config,
    s: State,
    k: &Security,
    subs: &Subscriptions,
    heads: &Heads,
    room: &Room,
) -> bool
    ensures { result ≡ Model.valid max_frame (state_of config.now s k.now subs.now heads.now room.now) }
{
    state::valid::is_valid(config, s, k, subs, heads, room)
}

// 0 says nothing, 1 a payload of so many bytes, 2 a code under the rule of functional requests, 3 a code however it was addressed; any
// other number says that the request is pending.
fn reply(kind: u8, n: u8) -> Reply
    ensures { result ≡ wanted kind n }
{
    match kind {
        0 => Reply::Silent,
        1 => Reply::Positive(n as usize),
        2 => Reply::Negative(n),
        3 => Reply::Always(n),
        _ => Reply::Pends,
    }
}

// The effect made of its numbers, and carried out.
#[unsafe(no_mangle)]
pub extern "C" fn bench_apply(
    config: &Config,
    s: State,
    k: &mut Security,
    heads: &mut Heads,
    room: &mut Room,
    to: u32,
    sid: u8,
    t: Instant,
    functional: bool,
    kind: u8,
    n: u8,
    session: u8,
    level: u8,
    subscriptions: u8,
    waits: bool,
    clears_seed: bool,
) -> Answer
    ensures { Applies config.now s k.old heads.old room.old to sid t.0 functional (record { reply = wanted kind n; session = session; level = level; subscriptions = subscriptions; waits = waits; clears_seed = clears_seed }) result k.new heads.new room.new }
{
    let said = reply(kind, n);
    let asker = Asker {
        functional,
        to,
        sid,
    };
    let e = Effect {
        reply: said,
        session,
        level,
        subscriptions,
        waits,
        clears_seed,
    };
    state::apply::apply(config, s, k, heads, room, asker, t, e)
}
