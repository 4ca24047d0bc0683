// 38 requestFileTransfer: 3 or more; bytes 1 and 2 of the payload are the path's length, high byte first; a path that does not fit is empty, and what follows
// it is unused; act; the reply is its bytes.
ghost use Rattle.std.specs.Prelude.{◌≡◌};
ghost use Rattle.model.specs.Service.{Seen};
ghost use Rattle.model.specs.Service38 as Rules;
ghost use Rattle.model.specs.Service38.{path_length};
ghost use Rattle.service.specs.Act.{Asked};
ghost use Rattle.service.specs.Seen.{asking, handed, Speaks};
ghost use Rattle.transfer.specs.Later.{later38};

use queue::Room;
use service::{Act, Part, Request, Spoken};
use uds::nrc::Nrc;

// The path's length; 0 where the path does not fit into the payload.
fn path_length(payload: &[u8]) -> usize
    ensures { result ≡ path_length payload.now }
{
    let length = usize::from(uds::frame::word(payload, 1));
    if payload.len() < 3 + length {
        return 0;
    }
    length
}

// Before the act's outcome is known.
#[tactic(auto, unfolding(model::specs::Service38::service38))]
pub fn ask38(request: &Request) -> Result<Act, u8>
    ensures { (v : Seen) → Asked Rules.service38 later38 (asking request.now.payload.now v) result }
{
    if request.payload.len() < 3 {
        return Err(Nrc::INCORRECT_MESSAGE_LENGTH_OR_INVALID_FORMAT);
    }
    let path = path_length(request.payload);
    Ok(Act {
        a: Part::of(1, 1),
        b: Part::of(4, path),
        c: Part::NONE,
        number: 0x38,
        parts: 2,
    })
}

pub fn service38(request: &Request, room: &mut Room) -> Spoken
    ensures { (v : Seen) → Speaks Rules.service38 (asking request.now.payload.now (handed request.now.err request.now.given.now v)) request.now.frames room.old result room.new }
{
    let outcome = request.outcome(256);
    service::answered(
        ask38(request),
        request.frames,
        outcome,
        false,
        &[],
        request.given,
        room,
    )
}
