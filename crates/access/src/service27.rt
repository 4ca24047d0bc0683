// 27 securityAccess: an odd access type asks a seed for its level, the even one after it sends that level's key. The suppress bit is ignored.
ghost use Rattle.std.specs.Prelude.{◌≡◌, ℕ, ◌-◌, ◌≤◌, ◌<◌, true, false, List, length};
ghost use Rattle.model.specs.Config.{find_level};
ghost use Rattle.model.specs.State.{security_valid};
ghost use Rattle.model.specs.Queue.{negative};
ghost use Rattle.model.specs.Service.{Seen, secures};
ghost use Rattle.model.specs.Service27 as Rules;
ghost use Rattle.config.specs.View.{config_of};
ghost use Rattle.security.specs.View.{security_of};
ghost use Rattle.service.specs.Act.{Asked, outcome_of};
ghost use Rattle.service.specs.Seen.{asking, handed, configured, in_session, received_at, secured, subscribed, Serves};
ghost use Rattle.access.specs.Access.{ready27, access27, row_or, later_seed, later_key, outcome27, later27};
ghost use Rattle.service.specs.Effects.{Effects, Leaves};

use config::Config;
use queue::Room;
use queue::reply::Reply;
use security::Security;
use service::{Act, Part, Request, Wanted};
use state::apply::Effect;
use uds::clock::Instant;
use uds::nrc::Nrc;

// A seed of so many bytes fills the place that is kept for one, and is not sent.
const MAX_SEED: usize = 32;

// What every call has shown before a service is asked: numbers that are kept, and a time of at most 2^48.
fn ready(request: &Request, k: &Security) -> bool
    ensures { result ≡ ready27 (config_of request.now.config.now) (security_of k.now) request.now.t.0 }
{
    config::within(request.config) && security::is_valid(k) && request.t.0 <= Instant::MAX_TIME
}

// A seed is asked: locked 0x37, a level that has no row 0x12.
fn ask_seed(request: &Request, k: &Security, level: u8) -> Result<Act, u8>
    requires { ready27 (config_of request.now.config.now) (security_of k.now) request.now.t.0 ≡ true }
    ensures { (v : Seen) → Asked (λ u. Rules.request_seed u level) (later_seed level) (secured k.now (received_at request.now.t.0 (configured request.now.config.now v))) result }
{
    if security::is_locked(k, level, request.t) {
        return Err(Nrc::REQUIRED_TIME_DELAY_NOT_EXPIRED);
    }
    if config::find_security_level(request.config, level).is_none() {
        return Err(Nrc::SUB_FUNCTION_NOT_SUPPORTED);
    }
    Ok(Act {
        a: Part::of(1, 1),
        b: Part::NONE,
        c: Part::NONE,
        number: 0x27,
        parts: 1,
    })
}

// The key has its configured length, if the level has a row.
fn key_fits(config: &Config, level: u8, len: usize) -> bool
    ensures { result ≡ Rules.key_fits len (find_level (config_of config.now) level) }
{
    let row = config::find_security_level(config, level);
    row.is_none() || len == config::key_length(config, row)
}

// A key is sent: locked 0x37; no seed of the level awaits one 0x24; of another length 0x13, the seed kept and nothing counted. Inlined with `ask_access`, see there.
#[inline(always)]
fn ask_key(request: &Request, k: &Security, level: u8) -> Result<Act, u8>
    requires { (ready27 (config_of request.now.config.now) (security_of k.now) request.now.t.0 ≡ true) × (1 ≤ length request.now.payload.now) }
    ensures { (v : Seen) → Asked (λ u. Rules.send_key u level) (later_key level) (secured k.now (received_at request.now.t.0 (asking request.now.payload.now (configured request.now.config.now v)))) result }
{
    if security::is_locked(k, level, request.t) {
        return Err(Nrc::REQUIRED_TIME_DELAY_NOT_EXPIRED);
    }
    if !security::awaits(k, level) {
        return Err(Nrc::REQUEST_SEQUENCE_ERROR);
    }
    let len = request.payload.len() - 1;
    if !key_fits(request.config, level, len) {
        return Err(Nrc::INCORRECT_MESSAGE_LENGTH_OR_INVALID_FORMAT);
    }
    Ok(Act {
        a: Part::of(1, 1),
        b: Part::of(2, len),
        c: Part::NONE,
        number: 0x27,
        parts: 2,
    })
}

// Absent is short, access type 0 is 0x12. A question and a request ask it. Inlined: as a call it would need the request's address, and its maker would keep all
// of the record on the stack. The compiler inlines by itself what other services ask.
#[inline(always)]
fn ask_access(request: &Request, k: &Security) -> Result<Act, u8>
    requires { ready27 (config_of request.now.config.now) (security_of k.now) request.now.t.0 ≡ true }
    ensures { (v : Seen) → Asked Rules.service27 later27 (secured k.now (received_at request.now.t.0 (asking request.now.payload.now (configured request.now.config.now v)))) result }
{
    if request.payload.is_empty() {
        return Err(Nrc::INCORRECT_MESSAGE_LENGTH_OR_INVALID_FORMAT);
    }
    let access = uds::frame::sub_function(request.payload);
    if access == 0 {
        return Err(Nrc::SUB_FUNCTION_NOT_SUPPORTED);
    }
    if access % 2 == 1 {
        return ask_seed(request, k, access);
    }
    ask_key(request, k, access - 1)
}

// Before the act's outcome is known. It only reads.
pub fn ask27(request: &Request, k: &Security) -> Result<Act, u8>
    ensures { (v : Seen) → Asked access27 later27 (secured k.now (received_at request.now.t.0 (asking request.now.payload.now (configured request.now.config.now v)))) result }
{
    if !ready(request, k) {
        return Err(Nrc::CONDITIONS_NOT_CORRECT);
    }
    ask_access(request, k)
}

// An error is 0x22, and the old seed stays; a wrong length is 0x22, and a seed of 32 is 0x14, and none awaits its key then.
fn give_seed(
    request: &Request,
    level: u8,
    outcome: Result<(), u8>,
    k: &mut Security,
    room: &mut Room,
) -> Reply
    ensures { (v : Seen) → Leaves (Rules.seed_given (secured k.old v) level (row_or (find_level (config_of request.now.config.now) level)) (outcome_of outcome request.now.given.now)) v v.session.level request.now.frames room.old result k.new room.new }
{
    if outcome.is_err() {
        return Reply::Negative(Nrc::CONDITIONS_NOT_CORRECT);
    }
    let given = request.given;
    let row = config::find_security_level(request.config, level);
    if given.len() != config::seed_length(request.config, row) {
        security::clear(k);
        return Reply::Negative(Nrc::CONDITIONS_NOT_CORRECT);
    }
    if MAX_SEED <= given.len() {
        security::clear(k);
        return Reply::Negative(Nrc::RESPONSE_TOO_LONG);
    }
    security::seed(k, level, given);
    service::joined(request.frames, &[level], given, room)
}

// Accepted: the count is 0, the seed cleared, the access type echoed.
fn accept(level: u8, frames: u8, k: &mut Security, room: &mut Room) -> Reply
    requires { (level < 128) × (security_valid (security_of k.old) ≡ true) }
    ensures { (v : Seen) → Leaves (Rules.accepted (secured k.old v) level) v level frames room.old result k.new room.new }
{
    security::reset(k, level);
    security::clear(k);
    service::joined(frames, &[level + 1], &[], room)
}

// Refused: the seed cleared and the count up, 0x35; at the last attempt the level is locked, 0x36; 0x22 where a list lacks room.
// It answers a code and no `Result`, since each way out of it refuses.
fn deny(config: &Config, level: u8, t: Instant, k: &mut Security) -> u8
    requires { ready27 (config_of config.now) (security_of k.old) t.0 ≡ true }
    ensures { (v : Seen) → Rules.denied (secured k.old (received_at t.0 v)) level (find_level (config_of config.now) level) (Rules.increment_failed level (security_of k.old).failed) ≡ secures v (security_of k.new) (negative result) }
{
    security::clear(k);
    if !security::increment(k, level) {
        return Nrc::CONDITIONS_NOT_CORRECT;
    }
    let row = config::find_security_level(config, level);
    let most = u64::from(config::max_attempts(config, row));
    if security::failed_count(k, level) < most {
        return Nrc::INVALID_KEY;
    }
    let until = t.plus(config::lockout(config, row));
    if !security::lock(k, level, until) {
        return Nrc::CONDITIONS_NOT_CORRECT;
    }
    Nrc::EXCEEDED_NUMBER_OF_ATTEMPTS
}

// What comes of the outcome: a seed, or a key that was accepted or refused.
fn carried(
    request: &Request,
    access: u8,
    outcome: Result<(), u8>,
    k: &mut Security,
    room: &mut Room,
) -> Effect
    requires { (ready27 (config_of request.now.config.now) (security_of k.old) request.now.t.0 ≡ true) × (access < 128) }
    ensures { (((v : Seen) (subs : List ℕ) → Effects (outcome27 (in_session request.now.session request.now.level (secured k.old (subscribed request.now.subscriptions subs (received_at request.now.t.0 (configured request.now.config.now v))))) access (outcome_of outcome request.now.given.now)) request.now.t.0 k.new subs request.now.frames room.old result room.new)) × (result.waits ≡ false) }
{
    if access % 2 == 1 {
        let reply = give_seed(request, access, outcome, k, room);
        return request.says(reply);
    }
    let level = access.saturating_sub(1);
    if outcome.is_ok() {
        let reply = accept(level, request.frames, k, room);
        return Effect {
            level,
            ..request.says(reply)
        };
    }
    let refusal = deny(request.config, level, request.t, k);
    request.says(Reply::Negative(refusal))
}

pub fn service27(request: &Request, k: &mut Security, room: &mut Room) -> Wanted
    ensures { (v : Seen) (subs : List ℕ) → Serves access27 (in_session request.now.session request.now.level (secured k.old (subscribed request.now.subscriptions subs (received_at request.now.t.0 (asking request.now.payload.now (configured request.now.config.now (handed request.now.err request.now.given.now v))))))) k.old subs request.now.frames room.old result k.new subs room.new }
{
    if !ready(request, k) {
        return request.refused(Nrc::CONDITIONS_NOT_CORRECT);
    }
    match ask_access(request, k) {
        Err(code) => request.refused(code),
        Ok(act) => {
            let access = uds::frame::sub_function(request.payload);
            Wanted {
                effect: carried(request, access, request.outcome(256), k, room),
                act,
            }
        }
    }
}
