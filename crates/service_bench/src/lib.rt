// The services for callers in Rust or C, so that each can be run and measured alone. A slice passes as its first element and its length.
#![tactic(auto)]

ghost use Rattle.std.specs.Prelude.{◌≡◌, ℕ, List};
ghost use Rattle.model.specs.Service.{Seen};
ghost use Rattle.model.specs.Service10 as S10;
ghost use Rattle.model.specs.Service11 as S11;
ghost use Rattle.model.specs.Service22 as S22;
ghost use Rattle.model.specs.Service28 as S28;
ghost use Rattle.model.specs.Service2E as S2E;
ghost use Rattle.model.specs.Service2F as S2F;
ghost use Rattle.model.specs.Service31 as S31;
ghost use Rattle.model.specs.Service34 as S34;
ghost use Rattle.model.specs.Service36 as S36;
ghost use Rattle.model.specs.Service37 as S37;
ghost use Rattle.model.specs.Service38 as S38;
ghost use Rattle.model.specs.Service3E as S3E;
ghost use Rattle.service.specs.Seen.{asking, handed, configured, in_session, received_at, received_from, secured, subscribed, valued, Speaks, Serves};
ghost use Rattle.access.specs.Access.{access27};
ghost use Rattle.transmission.specs.View2A.{guarded2A};
ghost use Rattle.service_bench.specs.Told.{reply_told, spoken_told, wanted_told};

use config::Config;
use periodic::Subscriptions;
use queue::Room;
use queue::reply::Reply;
use security::Security;
use service::{Act, Request, Spoken, Wanted};
use uds::clock::Instant;

// What a service is lent that does not look at a configuration.
const NO_CONFIG: Config = [0; 3006];

// A reply by number: 0 says nothing, 1 a payload of n bytes, 2 the code n under the rule of functional requests, 3 the code n however it was
// addressed, 4 that the request is pending.
#[repr(C)]
#[derive(Clone, Copy)]
pub struct Said {
    pub n: usize,
    pub kind: u8,
}

// What a service answers that changes nothing.
#[repr(C)]
#[derive(Clone, Copy)]
pub struct ToldSpoken {
    pub reply: Said,
    pub act: Act,
}

// What a service answers that changes something.
#[repr(C)]
#[derive(Clone, Copy)]
pub struct ToldWanted {
    pub reply: Said,
    pub act: Act,
    pub session: u8,
    pub level: u8,
    pub subscriptions: u8,
    pub waits: bool,
    pub clears_seed: bool,
}

#[tactic(auto, unfolding(crate::specs::Told::reply_told))]
fn number(reply: Reply) -> Said
    ensures { reply_told result ≡ reply }
{
    match reply {
        Reply::Silent => Said { n: 0, kind: 0 },
        Reply::Positive(len) => Said { n: len, kind: 1 },
        Reply::Negative(code) => Said {
            n: usize::from(code),
            kind: 2,
        },
        Reply::Always(code) => Said {
            n: usize::from(code),
            kind: 3,
        },
        Reply::Pends => Said { n: 0, kind: 4 },
    }
}

#[tactic(auto, unfolding(crate::specs::Told::spoken_told))]
fn told_spoken(spoken: Spoken) -> ToldSpoken
    ensures { spoken_told result ≡ spoken }
{
    ToldSpoken {
        reply: number(spoken.reply),
        act: spoken.act,
    }
}

#[tactic(auto, unfolding(crate::specs::Told::wanted_told))]
fn told_wanted(wanted: Wanted) -> ToldWanted
    ensures { wanted_told result ≡ wanted }
{
    let effect = wanted.effect;
    ToldWanted {
        reply: number(effect.reply),
        act: wanted.act,
        session: effect.session,
        level: effect.level,
        subscriptions: effect.subscriptions,
        waits: effect.waits,
        clears_seed: effect.clears_seed,
    }
}

// A request of a service that looks at no configuration and at no session, with what is handed in for its act.
fn requested<'a>(frames: u8, payload: &'a [u8], err: u8, given: &'a [u8]) -> Request<'a>
    ensures { (result.frames ≡ frames) × (result.payload.now ≡ payload.now) × (result.err ≡ err) × (result.given.now ≡ given.now) }
{
    Request {
        frames,
        err,
        given,
        ..Request::of(&NO_CONFIG, payload)
    }
}

// 10 diagnosticSessionControl.
#[unsafe(no_mangle)]
pub extern "C" fn bench_service10(
    config: &Config,
    session: u8,
    level: u8,
    subscriptions: u8,
    frames: u8,
    payload: &[u8],
    room: &mut Room,
) -> ToldWanted
    ensures { (v : Seen) (k subs : List ℕ) → Serves S10.service10 (in_session session level (secured k (subscribed subscriptions subs (asking payload.now (configured config.now v))))) k subs frames room.old (wanted_told result) k subs room.new }
{
    let request = Request {
        session,
        level,
        subscriptions,
        frames,
        ..Request::of(config, payload)
    };
    told_wanted(management::service10::service10(&request, room))
}

// 11 ecuReset.
#[unsafe(no_mangle)]
pub extern "C" fn bench_service11(
    session: u8,
    level: u8,
    subscriptions: u8,
    frames: u8,
    payload: &[u8],
    err: u8,
    given: &[u8],
    room: &mut Room,
) -> ToldWanted
    ensures { (v : Seen) (k subs : List ℕ) → Serves S11.service11 (in_session session level (secured k (subscribed subscriptions subs (asking payload.now (handed err given.now v))))) k subs frames room.old (wanted_told result) k subs room.new }
{
    let request = Request {
        session,
        level,
        subscriptions,
        frames,
        err,
        given,
        ..Request::of(&NO_CONFIG, payload)
    };
    told_wanted(management::service11::service11(&request, room))
}

// 22 readDataByIdentifier.
#[unsafe(no_mangle)]
pub extern "C" fn bench_service22(
    config: &Config,
    session: u8,
    level: u8,
    frames: u8,
    values: &[u32],
    pool: &[u8],
    payload: &[u8],
    room: &mut Room,
) -> ToldSpoken
    ensures { (v : Seen) → Speaks S22.service22 (asking payload.now (configured config.now (in_session session level (valued values.now pool.now v)))) frames room.old (spoken_told result) room.new }
{
    let request = Request {
        session,
        level,
        frames,
        values,
        pool,
        ..Request::of(config, payload)
    };
    told_spoken(data::service22::service22(&request, room))
}

// 27 securityAccess.
#[unsafe(no_mangle)]
pub extern "C" fn bench_service27(
    config: &Config,
    session: u8,
    level: u8,
    subscriptions: u8,
    frames: u8,
    payload: &[u8],
    t: Instant,
    err: u8,
    given: &[u8],
    k: &mut Security,
    room: &mut Room,
) -> ToldWanted
    ensures { (v : Seen) (subs : List ℕ) → Serves access27 (in_session session level (secured k.old (subscribed subscriptions subs (received_at t.0 (asking payload.now (configured config.now (handed err given.now v))))))) k.old subs frames room.old (wanted_told result) k.new subs room.new }
{
    let request = Request {
        session,
        level,
        subscriptions,
        frames,
        t,
        err,
        given,
        ..Request::of(config, payload)
    };
    told_wanted(access::service27::service27(&request, k, room))
}

// 28 communicationControl.
#[unsafe(no_mangle)]
pub extern "C" fn bench_service28(
    frames: u8,
    payload: &[u8],
    err: u8,
    given: &[u8],
    room: &mut Room,
) -> ToldSpoken
    ensures { (v : Seen) → Speaks S28.service28 (asking payload.now (handed err given.now v)) frames room.old (spoken_told result) room.new }
{
    told_spoken(management::service28::service28(&requested(frames, payload, err, given), room))
}

// 2A readDataByPeriodicIdentifier.
#[unsafe(no_mangle)]
pub extern "C" fn bench_service2A(
    config: &Config,
    session: u8,
    level: u8,
    subscriptions: u8,
    frames: u8,
    src: u32,
    t: Instant,
    payload: &[u8],
    subs: &mut Subscriptions,
    room: &mut Room,
) -> ToldWanted
    ensures { (v : Seen) (k : List ℕ) → Serves guarded2A (in_session session level (received_at t.0 (received_from src (configured config.now (subscribed subscriptions subs.old (asking payload.now (secured k v))))))) k subs.old frames room.old (wanted_told result) k subs.new room.new }
{
    let request = Request {
        session,
        level,
        subscriptions,
        frames,
        src,
        t,
        ..Request::of(config, payload)
    };
    told_wanted(transmission::service2A::service2A(&request, subs, room))
}

// 2E writeDataByIdentifier.
#[unsafe(no_mangle)]
pub extern "C" fn bench_service2E(
    config: &Config,
    session: u8,
    level: u8,
    frames: u8,
    payload: &[u8],
    err: u8,
    given: &[u8],
    room: &mut Room,
) -> ToldSpoken
    ensures { (v : Seen) → Speaks S2E.service2E (asking payload.now (handed err given.now (configured config.now (in_session session level v)))) frames room.old (spoken_told result) room.new }
{
    let request = Request {
        session,
        level,
        frames,
        err,
        given,
        ..Request::of(config, payload)
    };
    told_spoken(data::service2E::service2E(&request, room))
}

// 2F inputOutputControlByIdentifier.
#[unsafe(no_mangle)]
pub extern "C" fn bench_service2F(
    frames: u8,
    payload: &[u8],
    err: u8,
    given: &[u8],
    room: &mut Room,
) -> ToldSpoken
    ensures { (v : Seen) → Speaks S2F.service2F (asking payload.now (handed err given.now v)) frames room.old (spoken_told result) room.new }
{
    told_spoken(control::service2F::service2F(&requested(frames, payload, err, given), room))
}

// 31 routineControl.
#[unsafe(no_mangle)]
pub extern "C" fn bench_service31(
    frames: u8,
    payload: &[u8],
    err: u8,
    given: &[u8],
    room: &mut Room,
) -> ToldSpoken
    ensures { (v : Seen) → Speaks S31.service31 (asking payload.now (handed err given.now v)) frames room.old (spoken_told result) room.new }
{
    told_spoken(control::service31::service31(&requested(frames, payload, err, given), room))
}

// 34 requestDownload.
#[unsafe(no_mangle)]
pub extern "C" fn bench_service34(
    frames: u8,
    payload: &[u8],
    err: u8,
    given: &[u8],
    room: &mut Room,
) -> ToldSpoken
    ensures { (v : Seen) → Speaks S34.service34 (asking payload.now (handed err given.now v)) frames room.old (spoken_told result) room.new }
{
    told_spoken(transfer::service34::service34(&requested(frames, payload, err, given), room))
}

// 36 transferData.
#[unsafe(no_mangle)]
pub extern "C" fn bench_service36(
    frames: u8,
    payload: &[u8],
    err: u8,
    given: &[u8],
    room: &mut Room,
) -> ToldSpoken
    ensures { (v : Seen) → Speaks S36.service36 (asking payload.now (handed err given.now v)) frames room.old (spoken_told result) room.new }
{
    told_spoken(transfer::service36::service36(&requested(frames, payload, err, given), room))
}

// 37 requestTransferExit.
#[unsafe(no_mangle)]
pub extern "C" fn bench_service37(
    frames: u8,
    payload: &[u8],
    err: u8,
    given: &[u8],
    room: &mut Room,
) -> ToldSpoken
    ensures { (v : Seen) → Speaks S37.service37 (asking payload.now (handed err given.now v)) frames room.old (spoken_told result) room.new }
{
    told_spoken(transfer::service37::service37(&requested(frames, payload, err, given), room))
}

// 38 requestFileTransfer.
#[unsafe(no_mangle)]
pub extern "C" fn bench_service38(
    frames: u8,
    payload: &[u8],
    err: u8,
    given: &[u8],
    room: &mut Room,
) -> ToldSpoken
    ensures { (v : Seen) → Speaks S38.service38 (asking payload.now (handed err given.now v)) frames room.old (spoken_told result) room.new }
{
    told_spoken(transfer::service38::service38(&requested(frames, payload, err, given), room))
}

// 3E testerPresent.
#[unsafe(no_mangle)]
pub extern "C" fn bench_service3E(frames: u8, payload: &[u8], room: &mut Room) -> ToldSpoken
    ensures { (v : Seen) → Speaks S3E.service3E (asking payload.now v) frames room.old (spoken_told result) room.new }
{
    let request = Request {
        frames,
        ..Request::of(&NO_CONFIG, payload)
    };
    told_spoken(management::service3E::service3E(&request, room))
}
