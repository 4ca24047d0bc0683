// 2A readDataByPeriodicIdentifier: subscriptions of the asking client, in the lent words.
ghost use Rattle.std.specs.Prelude.{◌≡◌, ℕ, ◌≤◌, ◌<◌, ◌^◌, List, [], ◌∷◌, get_or};
ghost use Rattle.model.specs.Numbers.{max_periodic};
ghost use Rattle.model.specs.Queue.{positive};
ghost use Rattle.model.specs.Service.{Seen, schedules, answers};
ghost use Rattle.model.specs.Service2A as Rules;
ghost use Rattle.periodic.specs.View.{table_of};
ghost use Rattle.queue.specs.declared.reply.Reply.TheVariants.{Negative};
ghost use Rattle.service.specs.Seen.{asking, configured, in_session, received_at, received_from, secured, subscribed, Serves};
ghost use Rattle.transmission.specs.View2A.{Ready, Every2A, Asked2A, guarded2A, RegistersOne, CancelsOne, Schedules};

use periodic::{MAX_PERIODIC, Subscriptions};
use queue::Room;
use queue::reply::Reply;
use service::{Act, Request, Wanted};
use uds::clock::Instant;
use uds::nrc::{Nrc, Rate};

// The modes: from slow to fast they register, and one cancels.
const SLOW: u8 = 1;

const FAST: u8 = 3;

const STOP: u8 = 4;

// Why an identifier is not registered: there is no room, or it is not readable.
#[derive(Clone, Copy, PartialEq, Eq)]
enum Unregistered {
    Full,
    Unreadable,
}

// What is said, and how many subscriptions stand then.
#[derive(Clone, Copy)]
struct Scheduled {
    reply: Reply,
    count: u8,
}

// Nothing changed.
fn refused(code: u8, count: u8) -> Scheduled
    ensures { result ≡ record { reply = Negative code; count = count } }
{
    Scheduled {
        reply: Reply::Negative(code),
        count,
    }
}

// A word is below 2^32: an array tells that to the proof only where it is lent as a slice.
fn spans(words: &[u32]) -> u32
    ensures { (j : ℕ) → get_or words.now j 0 < 2 ^ 32 }
{
    uds::table::word(words, 0)
}

// One identifier: readable in the session, then registered; how many subscriptions stand then. The level is not tested.
fn register_one(
    request: &Request,
    count: u8,
    mode: u8,
    b: u8,
    subs: &mut Subscriptions,
) -> Result<u8, Unregistered>
    requires { Ready count request.now.t.0 }
    ensures { RegistersOne request.now.config.now request.now.session count request.now.src request.now.t.0 mode b subs.old result subs.new }
{
    let config = request.config;
    spans(config);
    let id = uds::frame::periodic_did(b);
    let did = config::find_did(config, id);
    if !config::readable_in(config, did, request.session) {
        return Err(Unregistered::Unreadable);
    }
    let rate = Rate(mode).interval();
    let interval = rate.larger(config::min_interval(config, did));
    periodic::register(subs, count, id, request.src, interval, request.t).ok_or(Unregistered::Full)
}

// Each identifier in order; earlier ones stay after a refusal. A full table says 0x31 however the request was addressed.
fn register_all(
    request: &Request,
    mode: u8,
    ids: &[u8],
    subs: &mut Subscriptions,
    room: &mut Room,
) -> Scheduled
    requires { Ready request.now.subscriptions request.now.t.0 }
    ensures { Every2A request.now.config.now request.now.session request.now.src request.now.t.0 (λ v. Schedules v (answers (Rules.register_all v mode ids.now (table_of request.now.subscriptions subs.old))) request.now.frames room.old result subs.new room.new) }
{
    let mut count = request.subscriptions;
    for &b in ids {
        match register_one(request, count, mode, b, subs) {
            Ok(n) => count = n,
            Err(Unregistered::Full) => {
                return Scheduled {
                    reply: Reply::Always(Nrc::REQUEST_OUT_OF_RANGE),
                    count,
                };
            }
            Err(Unregistered::Unreadable) => return refused(Nrc::REQUEST_OUT_OF_RANGE, count),
        }
    }
    Scheduled {
        reply: service::joined(request.frames, &[mode], &[], room),
        count,
    }
}

// One identifier of the asking client cancelled.
fn cancel_one(count: u8, src: u32, b: u8, subs: &mut Subscriptions) -> u8
    requires { count ≤ max_periodic }
    ensures { CancelsOne count src b subs.old result subs.new }
{
    periodic::cancel(subs, count, uds::frame::periodic_did(b), src)
}

// The listed identifiers of the asking client cancelled.
fn cancel_all(
    request: &Request,
    mode: u8,
    ids: &[u8],
    subs: &mut Subscriptions,
    room: &mut Room,
) -> Scheduled
    requires { request.now.subscriptions ≤ max_periodic }
    ensures { (v : Seen) → Schedules v (answers (schedules v (Rules.cancel_all request.now.src ids.now (table_of request.now.subscriptions subs.old)) (positive (mode ∷ [])))) request.now.frames room.old result subs.new room.new }
{
    let mut count = request.subscriptions;
    for &b in ids {
        count = cancel_one(count, request.src, b, subs);
    }
    Scheduled {
        reply: service::joined(request.frames, &[mode], &[], room),
        count,
    }
}

// The first byte, unmasked: 4 cancels, 1 to 3 register, any other is 0x12; empty is short.
#[tactic(auto, using(crate::proofs::Laws2A::ways2A))]
fn transmission(request: &Request, subs: &mut Subscriptions, room: &mut Room) -> Scheduled
    requires { Ready request.now.subscriptions request.now.t.0 }
    ensures { Asked2A request.now.config.now request.now.session request.now.src request.now.t.0 request.now.subscriptions subs.old request.now.payload.now (λ v. Schedules v (Rules.service2A v) request.now.frames room.old result subs.new room.new) }
{
    let Some((&mode, ids)) = request.payload.split_first() else {
        return refused(
            Nrc::INCORRECT_MESSAGE_LENGTH_OR_INVALID_FORMAT,
            request.subscriptions,
        );
    };
    if mode == STOP {
        return cancel_all(request, mode, ids, subs, room);
    }
    if mode < SLOW || FAST < mode {
        return refused(Nrc::SUB_FUNCTION_NOT_SUPPORTED, request.subscriptions);
    }
    register_all(request, mode, ids, subs, room)
}

// A count or a time that no valid call has is refused before the words are looked at.
#[tactic(auto, using(crate::proofs::Laws2A::guards))]
fn guarded(request: &Request, subs: &mut Subscriptions, room: &mut Room) -> Scheduled
    ensures { Asked2A request.now.config.now request.now.session request.now.src request.now.t.0 request.now.subscriptions subs.old request.now.payload.now (λ v. Schedules v (guarded2A v) request.now.frames room.old result subs.new room.new) }
{
    if MAX_PERIODIC < request.subscriptions || Instant::MAX_TIME < request.t.0 {
        return refused(Nrc::CONDITIONS_NOT_CORRECT, request.subscriptions);
    }
    transmission(request, subs, room)
}

// It asks no act, and changes neither session nor security.
pub fn service2A(request: &Request, subs: &mut Subscriptions, room: &mut Room) -> Wanted
    ensures { (v : Seen) (k : List ℕ) → Serves guarded2A (in_session request.now.session request.now.level (received_at request.now.t.0 (received_from request.now.src (configured request.now.config.now (subscribed request.now.subscriptions subs.old (asking request.now.payload.now (secured k v))))))) k subs.old request.now.frames room.old result k subs.new room.new }
{
    let s = guarded(request, subs, room);
    let scheduled = Request {
        subscriptions: s.count,
        ..*request
    };
    Wanted {
        effect: scheduled.says(s.reply),
        act: Act::none(),
    }
}
