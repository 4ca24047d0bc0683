// 37 requestTransferExit: any payload; act; the reply is its bytes.
ghost use Rattle.std.specs.Prelude.{◌≡◌, Ok};
ghost use Rattle.model.specs.Service.{Seen};
ghost use Rattle.model.specs.Service37 as Rules;
ghost use Rattle.service.specs.Act.{Asked};
ghost use Rattle.service.specs.Seen.{asking, handed, Speaks};
ghost use Rattle.transfer.specs.Later.{later37};

use queue::Room;
use service::{Act, Part, Request, Spoken};

// Before the act's outcome is known: nothing refuses it.
#[tactic(auto, unfolding(model::specs::Service37::service37))]
pub fn ask37(request: &Request) -> Act
    ensures { (v : Seen) → Asked Rules.service37 later37 (asking request.now.payload.now v) (Ok result) }
{
    Act {
        a: Part::of(1, request.payload.len()),
        b: Part::NONE,
        c: Part::NONE,
        number: 0x37,
        parts: 1,
    }
}

pub fn service37(request: &Request, room: &mut Room) -> Spoken
    ensures { (v : Seen) → Speaks Rules.service37 (asking request.now.payload.now (handed request.now.err request.now.given.now v)) request.now.frames room.old result room.new }
{
    let outcome = request.outcome(256);
    let ask = Ok(ask37(request));
    service::answered(
        ask,
        request.frames,
        outcome,
        false,
        &[],
        request.given,
        room,
    )
}
