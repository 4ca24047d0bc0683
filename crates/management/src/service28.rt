// 28 communicationControl: 2 or more; act; unless suppressed, the sub-function echoed.
ghost use Rattle.std.specs.Prelude.{◌≡◌};
ghost use Rattle.model.specs.Service.{Seen};
ghost use Rattle.model.specs.Service28 as Rules;
ghost use Rattle.service.specs.Act.{Asked};
ghost use Rattle.service.specs.Seen.{asking, handed, Speaks};
ghost use Rattle.management.specs.Later.{later28};

use queue::Room;
use service::{Act, Part, Request, Spoken};
use uds::nrc::Nrc;

// Before the act's outcome is known.
#[tactic(auto, using(crate::proofs::Laws::short28, crate::proofs::Laws::asks28))]
pub fn ask28(request: &Request) -> Result<Act, u8>
    ensures { (v : Seen) → Asked Rules.service28 later28 (asking request.now.payload.now v) result }
{
    if request.payload.len() < 2 {
        return Err(Nrc::INCORRECT_MESSAGE_LENGTH_OR_INVALID_FORMAT);
    }
    Ok(Act {
        a: Part::of(1, 1),
        b: Part::of(2, 1),
        c: Part::NONE,
        number: 0x28,
        parts: 2,
    })
}

pub fn service28(request: &Request, room: &mut Room) -> Spoken
    ensures { (v : Seen) → Speaks Rules.service28 (asking request.now.payload.now (handed request.now.err request.now.given.now v)) request.now.frames room.old result room.new }
{
    let outcome = request.outcome(256);
    let echo = uds::frame::sub_function(request.payload);
    let suppress = uds::frame::suppressed(request.payload);
    service::answered(
        ask28(request),
        request.frames,
        outcome,
        suppress,
        &[echo],
        &[],
        room,
    )
}
