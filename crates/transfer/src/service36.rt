// 36 transferData: 1 or more; act; the counter echoed, then the bytes.
ghost use Rattle.std.specs.Prelude.{◌≡◌};
ghost use Rattle.model.specs.Service.{Seen};
ghost use Rattle.model.specs.Service36 as Rules;
ghost use Rattle.service.specs.Act.{Asked};
ghost use Rattle.service.specs.Seen.{asking, handed, Speaks};
ghost use Rattle.transfer.specs.Later.{later36};

use queue::Room;
use service::{Act, Part, Request, Spoken};
use uds::nrc::Nrc;

// Before the act's outcome is known.
#[tactic(auto, unfolding(model::specs::Service36::service36))]
pub fn ask36(request: &Request) -> Result<Act, u8>
    ensures { (v : Seen) → Asked Rules.service36 later36 (asking request.now.payload.now v) result }
{
    if request.payload.is_empty() {
        return Err(Nrc::INCORRECT_MESSAGE_LENGTH_OR_INVALID_FORMAT);
    }
    let rest = request.payload.len() - 1;
    Ok(Act {
        a: Part::of(1, 1),
        b: Part::of(2, rest),
        c: Part::NONE,
        number: 0x36,
        parts: 2,
    })
}

pub fn service36(request: &Request, room: &mut Room) -> Spoken
    ensures { (v : Seen) → Speaks Rules.service36 (asking request.now.payload.now (handed request.now.err request.now.given.now v)) request.now.frames room.old result room.new }
{
    let outcome = request.outcome(256);
    let counter = uds::frame::byte(request.payload, 0);
    service::answered(
        ask36(request),
        request.frames,
        outcome,
        false,
        &[counter],
        request.given,
        room,
    )
}
