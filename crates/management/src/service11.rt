// 11 ecuReset: the act first, then the answer, and then the reset.
ghost use Rattle.std.specs.Prelude.{◌≡◌, ℕ, List};
ghost use Rattle.model.specs.Service.{Seen};
ghost use Rattle.model.specs.Service11 as Rules;
ghost use Rattle.service.specs.Act.{Asked, outcome_of};
ghost use Rattle.service.specs.Seen.{asking, handed, in_session, secured, subscribed, Serves};
ghost use Rattle.service.specs.Effects.{Effects};
ghost use Rattle.management.specs.Later.{later11};

use queue::Room;
use service::{Act, Part, Request, Wanted};
use state::apply::Effect;
use uds::nrc::Nrc;

// Before the act's outcome is known: absent is short.
#[tactic(auto, using(crate::proofs::Laws::short11, crate::proofs::Laws::asks11))]
pub fn ask11(request: &Request) -> Result<Act, u8>
    ensures { (v : Seen) → Asked Rules.service11 later11 (asking request.now.payload.now v) result }
{
    if request.payload.is_empty() {
        return Err(Nrc::INCORRECT_MESSAGE_LENGTH_OR_INVALID_FORMAT);
    }
    Ok(Act {
        a: Part::of(1, 1),
        b: Part::NONE,
        c: Part::NONE,
        number: 0x11,
        parts: 1,
    })
}

// Session 1, no level held, the seed cleared: once the type is echoed, or suppressed.
fn reset(request: &Request, outcome: Result<(), u8>, room: &mut Room) -> Effect
    ensures { (v : Seen) (k subs b : List ℕ) → Effects (Rules.reset (in_session request.now.session request.now.level (secured k (subscribed request.now.subscriptions subs (asking request.now.payload.now v)))) (outcome_of outcome b)) v.now k subs request.now.frames room.old result room.new }
{
    let reply = super::echoed(request, outcome, room);
    match outcome {
        Err(_) => request.says(reply),
        Ok(()) => Effect {
            reply,
            session: 1,
            level: 0,
            subscriptions: request.subscriptions,
            clears_seed: true,
            waits: true,
        },
    }
}

pub fn service11(request: &Request, room: &mut Room) -> Wanted
    ensures { (v : Seen) (k subs : List ℕ) → Serves Rules.service11 (in_session request.now.session request.now.level (secured k (subscribed request.now.subscriptions subs (asking request.now.payload.now (handed request.now.err request.now.given.now v))))) k subs request.now.frames room.old result k subs room.new }
{
    match ask11(request) {
        Err(code) => request.refused(code),
        Ok(act) => Wanted {
            effect: reset(request, request.outcome(256), room),
            act,
        },
    }
}
