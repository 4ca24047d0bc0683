// 2E writeDataByIdentifier: 3 or more; writable in the session, the level held; act; the identifier echoed.
ghost use Rattle.std.specs.Prelude.{◌≡◌};
ghost use Rattle.model.specs.Service.{Seen};
ghost use Rattle.model.specs.Service2E as Rules;
ghost use Rattle.service.specs.Act.{Asked};
ghost use Rattle.service.specs.Seen.{asking, handed, configured, in_session, Speaks};
ghost use Rattle.data.specs.Later.{later2E};

use queue::Room;
use service::{Act, Part, Request, Spoken};
use uds::nrc::Nrc;

// Before the act's outcome is known. A question and a request ask it. Inlined: as a call it would need the request's address, and its maker would keep all of the
// record on the stack.
#[tactic(auto, using(crate::proofs::Laws2E::ways2E))]
#[inline(always)]
pub fn ask2E(request: &Request) -> Result<Act, u8>
    ensures { (v : Seen) → Asked Rules.service2E later2E (asking request.now.payload.now (configured request.now.config.now (in_session request.now.session request.now.level v))) result }
{
    let n = request.payload.len();
    if n < 3 {
        return Err(Nrc::INCORRECT_MESSAGE_LENGTH_OR_INVALID_FORMAT);
    }
    let did = config::find_did(request.config, uds::frame::word(request.payload, 0));
    if !config::writable_in(request.config, did, request.session) {
        return Err(Nrc::REQUEST_OUT_OF_RANGE);
    }
    if u32::from(request.level) < config::did_level(request.config, did) {
        return Err(Nrc::SECURITY_ACCESS_DENIED);
    }
    Ok(Act {
        a: Part::of(1, 2),
        b: Part::of(3, n - 2),
        c: Part::NONE,
        number: 0x2E,
        parts: 2,
    })
}

pub fn service2E(request: &Request, room: &mut Room) -> Spoken
    ensures { (v : Seen) → Speaks Rules.service2E (asking request.now.payload.now (handed request.now.err request.now.given.now (configured request.now.config.now (in_session request.now.session request.now.level v)))) request.now.frames room.old result room.new }
{
    let ask = ask2E(request);
    let outcome = request.outcome(256);
    let echo = service::first(request.payload, 2);
    service::answered(ask, request.frames, outcome, false, &[], echo, room)
}
