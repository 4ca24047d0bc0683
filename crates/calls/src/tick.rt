// A tick: S3, the pending request, the due subscriptions.
ghost use Rattle.std.specs.Prelude.{◌≡◌};
ghost use Rattle.model.specs.Numbers.{max_frame};
ghost use Rattle.model.specs.Tick as Model;
ghost use Rattle.uds.specs.Values.{table_of};
ghost use Rattle.model.specs.State as Valid;
ghost use Rattle.state.specs.View.{state_of};
ghost use Rattle.entry.specs.Gate.{barring};
ghost use Rattle.calls.specs.View.{tick_of};

use config::Config;
use periodic::Subscriptions;
use queue::reply::Outbox;
use queue::{Heads, Room};
use security::Security;
use state::State;
use state::valid::is_valid;
use uds::clock::Instant;
use uds::result::DONE;

// The state that is left, the result, and the error byte that comes with 8. It goes to C, so it holds numbers.
#[repr(C)]
#[derive(Clone, Copy)]
pub struct Ticked {
    pub state: State,
    pub result: u8,
    pub err: u8,
}

// The three steps, of a state that is valid and a time that is taken, whose frames wait in the outbox.
fn steps(
    config: &Config,
    s: State,
    k: &mut Security,
    subs: &mut Subscriptions,
    outbox: &mut Outbox,
    t: Instant,
    values: &[u32],
    pool: &[u8],
) -> Ticked
    requires { (s.frames ≡ outbox.old.count) × (0 ≡ barring (Valid.valid max_frame (state_of config.now s k.old subs.old outbox.old.heads.now outbox.old.room.now)) t.0) }
    ensures heads { outbox.new.heads.ghost_name ≡ outbox.old.heads.ghost_name }
    ensures room { outbox.new.room.ghost_name ≡ outbox.old.room.ghost_name }
    ensures ticks { tick_of config.now result k.new subs.new outbox.new.heads.now outbox.new.room.now ≡ Model.tick max_frame (state_of config.now s k.old subs.old outbox.old.heads.now outbox.old.room.now) t.0 (table_of values.now pool.now) }
{
    let session = ticking::s3(config, s.session, k, t);
    let said = ticking::refreshed(config, session.session_type, s.pending, outbox, t);
    let state = State {
        session,
        pending: said.pending,
        ..s
    };
    if let Err(why) = said.done {
        return Ticked {
            state: State {
                frames: outbox.count,
                ..state
            },
            result: u8::from(why),
            err: 0,
        };
    }
    match ticking::send_due(subs, s.subscriptions, outbox, t, values, pool) {
        Ok(()) => Ticked {
            state: State {
                frames: outbox.count,
                ..state
            },
            result: DONE,
            err: 0,
        },
        Err(unsent) => Ticked {
            state: State {
                frames: outbox.count,
                ..state
            },
            result: u8::from(unsent.why),
            err: unsent.err,
        },
    }
}

// 8, 4 and 3 end it where they are met: what was done before stays, and the later entries stand.
pub fn tick(
    config: &Config,
    s: State,
    k: &mut Security,
    subs: &mut Subscriptions,
    heads: &mut Heads,
    room: &mut Room,
    t: Instant,
    values: &[u32],
    pool: &[u8],
) -> Ticked
    ensures { tick_of config.now result k.new subs.new heads.new room.new ≡ Model.tick max_frame (state_of config.now s k.old subs.old heads.old room.old) t.0 (table_of values.now pool.now) }
{
    let valid = is_valid(config, s, k, subs, heads, room);
    if let Err(why) = entry::barred(valid, t) {
        return Ticked {
            state: s,
            result: u8::from(why),
            err: 0,
        };
    }
    let mut outbox = Outbox {
        count: s.frames,
        heads,
        room,
    };
    steps(config, s, k, subs, &mut outbox, t, values, pool)
}
