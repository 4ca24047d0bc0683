// Sessions and communication: 3E, 10, 11, 28.
#![tactic(auto)]

ghost use Rattle.std.specs.Prelude.{[], ◌∷◌};
ghost use Rattle.model.specs.Frame.{suppressed, sub_function};
ghost use Rattle.service.specs.Act.{acted_reply};
ghost use Rattle.service.specs.Seen.{Replies};

pub mod service10;
pub mod service11;
pub mod service28;
pub mod service3E;

use queue::Room;
use queue::reply::Reply;
use service::Request;

// What comes of an act, by its outcome, where the sub-function is echoed unless suppressed.
fn echoed(request: &Request, outcome: Result<(), u8>, room: &mut Room) -> Reply
    ensures { Replies (acted_reply outcome (suppressed request.now.payload.now) (sub_function request.now.payload.now ∷ [])) request.now.frames room.old result room.new }
{
    let echo = uds::frame::sub_function(request.payload);
    let suppress = uds::frame::suppressed(request.payload);
    service::acted(request.frames, outcome, suppress, &[echo], &[], room)
}
