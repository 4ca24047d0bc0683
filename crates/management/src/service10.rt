// 10 diagnosticSessionControl: opens a session.
ghost use Rattle.std.specs.Prelude.{◌≡◌, ℕ, List};
ghost use Rattle.model.specs.Tests.{pick};
ghost use Rattle.model.specs.Frame.{suppressed};
ghost use Rattle.model.specs.Queue.{silent, positive};
ghost use Rattle.model.specs.Service.{Seen};
ghost use Rattle.model.specs.Service10 as Rules;
ghost use Rattle.uds.specs.Table.{row_of};
ghost use Rattle.config.specs.View.{session_at};
ghost use Rattle.service.specs.Seen.{asking, configured, in_session, secured, subscribed, Replies, Serves};

use queue::Room;
use queue::reply::Reply;
use service::{Act, Request, Wanted};
use state::apply::Effect;
use uds::nrc::Nrc;

// The session, P2, and a tenth of P2*, unless suppressed.
fn timings(request: &Request, row: Option<usize>, kind: u8, room: &mut Room) -> Reply
    ensures { Replies (pick (suppressed request.now.payload.now) silent (positive (Rules.timings kind (row_of (session_at request.now.config.now) row)))) request.now.frames room.old result room.new }
{
    let suppress = uds::frame::suppressed(request.payload);
    let p2 = config::p2(request.config, row);
    let p2_ext = config::p2_ext(request.config, row);
    let [a, b] = uds::frame::two_bytes(p2.0);
    let [c, d] = uds::frame::two_bytes(p2_ext.0 / 10);
    service::acted(
        request.frames,
        Ok(()),
        suppress,
        &[kind, a, b, c, d],
        &[],
        room,
    )
}

// An unknown session is 0x12, an absent one is short.
#[tactic(auto, using(crate::proofs::Laws::short10, crate::proofs::Laws::unknown10, service::proofs::Effects::serves_refused))]
pub fn service10(request: &Request, room: &mut Room) -> Wanted
    ensures { (v : Seen) (k subs : List ℕ) → Serves Rules.service10 (in_session request.now.session request.now.level (secured k (subscribed request.now.subscriptions subs (asking request.now.payload.now (configured request.now.config.now v))))) k subs request.now.frames room.old result k subs room.new }
{
    if request.payload.is_empty() {
        return request.refused(Nrc::INCORRECT_MESSAGE_LENGTH_OR_INVALID_FORMAT);
    }
    let kind = uds::frame::sub_function(request.payload);
    let row = config::find_session(request.config, kind);
    if row.is_none() {
        return request.refused(Nrc::SUB_FUNCTION_NOT_SUPPORTED);
    }
    Wanted {
        effect: Effect {
            reply: timings(request, row, kind, room),
            session: kind,
            level: 0,
            subscriptions: request.subscriptions,
            clears_seed: true,
            waits: false,
        },
        act: Act::none(),
    }
}
