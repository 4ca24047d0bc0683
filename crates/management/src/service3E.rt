// 3E testerPresent: the sub-function (0 if absent) is echoed unless suppressed.
ghost use Rattle.std.specs.Prelude.{◌≡◌};
ghost use Rattle.model.specs.Service.{Seen};
ghost use Rattle.model.specs.Service3E as Rules;
ghost use Rattle.service.specs.Seen.{asking, Speaks};

use queue::Room;
use service::{Act, Request, Spoken};

#[tactic(auto, using(crate::proofs::Laws::echoes3E, service::proofs::Laws::speaks))]
pub fn service3E(request: &Request, room: &mut Room) -> Spoken
    ensures { (v : Seen) → Speaks Rules.service3E (asking request.now.payload.now v) request.now.frames room.old result room.new }
{
    Spoken {
        reply: super::echoed(request, Ok(()), room),
        act: Act::none(),
    }
}
