// 31 routineControl: 3 or more; act; unless suppressed, sub-function and two identifier bytes before the bytes.
ghost use Rattle.std.specs.Prelude.{◌≡◌};
ghost use Rattle.model.specs.Service.{Seen};
ghost use Rattle.model.specs.Service31 as Rules;
ghost use Rattle.service.specs.Act.{Asked};
ghost use Rattle.service.specs.Seen.{asking, handed, Speaks};
ghost use Rattle.control.specs.Later.{later31};

use queue::Room;
use service::{Act, Part, Request, Spoken};
use uds::nrc::Nrc;

// Before the act's outcome is known.
#[tactic(auto, unfolding(model::specs::Service31::service31))]
pub fn ask31(request: &Request) -> Result<Act, u8>
    ensures { (v : Seen) → Asked Rules.service31 later31 (asking request.now.payload.now v) result }
{
    if request.payload.len() < 3 {
        return Err(Nrc::INCORRECT_MESSAGE_LENGTH_OR_INVALID_FORMAT);
    }
    let rest = request.payload.len() - 3;
    Ok(Act {
        a: Part::of(1, 1),
        b: Part::of(2, 2),
        c: Part::of(4, rest),
        number: 0x31,
        parts: 3,
    })
}

pub fn service31(request: &Request, room: &mut Room) -> Spoken
    ensures { (v : Seen) → Speaks Rules.service31 (asking request.now.payload.now (handed request.now.err request.now.given.now v)) request.now.frames room.old result room.new }
{
    let outcome = request.outcome(256);
    let echo = uds::frame::sub_function(request.payload);
    let high = uds::frame::byte(request.payload, 1);
    let low = uds::frame::byte(request.payload, 2);
    let suppress = uds::frame::suppressed(request.payload);
    service::answered(
        ask31(request),
        request.frames,
        outcome,
        suppress,
        &[echo, high, low],
        request.given,
        room,
    )
}
