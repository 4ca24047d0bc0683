// 34 requestDownload: 3 or more; the first byte goes to the act whole; the high nibble of the second is the address length, the low nibble the size length;
// both must fit, else short. The reply is the act's bytes, of which there may be 64.
ghost use Rattle.std.specs.Prelude.{◌≡◌};
ghost use Rattle.model.specs.Service.{Seen};
ghost use Rattle.model.specs.Service34 as Rules;
ghost use Rattle.service.specs.Act.{Asked};
ghost use Rattle.service.specs.Seen.{asking, handed, Speaks};
ghost use Rattle.transfer.specs.Later.{later34};

use queue::Room;
use service::{Act, Part, Request, Spoken};
use uds::nrc::Nrc;

const MAX_DOWNLOAD: usize = 64;

// Before the act's outcome is known.
#[tactic(auto, unfolding(model::specs::Service34::service34))]
pub fn ask34(request: &Request) -> Result<Act, u8>
    ensures { (v : Seen) → Asked Rules.service34 later34 (asking request.now.payload.now v) result }
{
    if request.payload.len() < 3 {
        return Err(Nrc::INCORRECT_MESSAGE_LENGTH_OR_INVALID_FORMAT);
    }
    let lengths = uds::frame::byte(request.payload, 1);
    let address = usize::from(uds::frame::high_nibble(lengths));
    let size = usize::from(uds::frame::low_nibble(lengths));
    if request.payload.len() < 2 + address + size {
        return Err(Nrc::INCORRECT_MESSAGE_LENGTH_OR_INVALID_FORMAT);
    }
    Ok(Act {
        a: Part::of(1, 1),
        b: Part::of(3, address),
        c: Part::of(3 + address, size),
        number: 0x34,
        parts: 3,
    })
}

pub fn service34(request: &Request, room: &mut Room) -> Spoken
    ensures { (v : Seen) → Speaks Rules.service34 (asking request.now.payload.now (handed request.now.err request.now.given.now v)) request.now.frames room.old result room.new }
{
    let outcome = request.outcome(MAX_DOWNLOAD);
    service::answered(
        ask34(request),
        request.frames,
        outcome,
        false,
        &[],
        request.given,
        room,
    )
}
