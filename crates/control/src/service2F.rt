// 2F inputOutputControlByIdentifier: 3 or more; act; two identifier bytes first, then the bytes.
ghost use Rattle.std.specs.Prelude.{◌≡◌};
ghost use Rattle.model.specs.Service.{Seen};
ghost use Rattle.model.specs.Service2F as Rules;
ghost use Rattle.service.specs.Act.{Asked};
ghost use Rattle.service.specs.Seen.{asking, handed, Speaks};
ghost use Rattle.control.specs.Later.{later2F};

use queue::Room;
use service::{Act, Part, Request, Spoken};
use uds::nrc::Nrc;

// Before the act's outcome is known.
#[tactic(auto, unfolding(model::specs::Service2F::service2F))]
pub fn ask2F(request: &Request) -> Result<Act, u8>
    ensures { (v : Seen) → Asked Rules.service2F later2F (asking request.now.payload.now v) result }
{
    if request.payload.len() < 3 {
        return Err(Nrc::INCORRECT_MESSAGE_LENGTH_OR_INVALID_FORMAT);
    }
    let rest = request.payload.len() - 3;
    Ok(Act {
        a: Part::of(1, 2),
        b: Part::of(3, 1),
        c: Part::of(4, rest),
        number: 0x2F,
        parts: 3,
    })
}

pub fn service2F(request: &Request, room: &mut Room) -> Spoken
    ensures { (v : Seen) → Speaks Rules.service2F (asking request.now.payload.now (handed request.now.err request.now.given.now v)) request.now.frames room.old result room.new }
{
    let outcome = request.outcome(256);
    let identifier = service::first(request.payload, 2);
    service::answered(
        ask2F(request),
        request.frames,
        outcome,
        false,
        identifier,
        request.given,
        room,
    )
}
