// The fourteen services behind one function, and the rules that come right before them: no service row, the session not in its list.
#![tactic(auto)]

ghost use Rattle.std.specs.Prelude.{◌≡◌};
ghost use Rattle.service.specs.Seen.{says_of, Serves};
ghost use Rattle.dispatch.specs.Rules.{service, guarded};
ghost use Rattle.dispatch.specs.Seen.{seen_in};

use access::service27::service27;
use control::service2F::service2F;
use control::service31::service31;
use data::service2E::service2E;
use data::service22::service22;
use management::service3E::service3E;
use management::service10::service10;
use management::service11::service11;
use management::service28::service28;
use periodic::Subscriptions;
use queue::Room;
use security::Security;
use service::{Request, Spoken, Wanted};
use transfer::service34::service34;
use transfer::service36::service36;
use transfer::service37::service37;
use transfer::service38::service38;
use transmission::service2A::service2A;
use uds::nrc::Nrc;

// A reply and an act, as what is wanted: nothing changed.
fn spoken(request: &Request, r: Spoken) -> Wanted
    ensures { result ≡ record { effect = says_of request.now.session request.now.level request.now.subscriptions r.reply; act = r.act } }
{
    Wanted {
        effect: request.says(r.reply),
        act: r.act,
    }
}

// The service that the first byte names; a configured service outside the fourteen is 0x11.
pub fn serve(
    sid: u8,
    request: &Request,
    k: &mut Security,
    subs: &mut Subscriptions,
    room: &mut Room,
) -> Wanted
    ensures { Serves (service sid) (seen_in request.now k.old subs.old) k.old subs.old request.now.frames room.old result k.new subs.new room.new }
{
    match sid {
        0x3E => spoken(request, service3E(request, room)),
        0x10 => service10(request, room),
        0x11 => service11(request, room),
        0x27 => service27(request, k, room),
        0x22 => spoken(request, service22(request, room)),
        0x2E => spoken(request, service2E(request, room)),
        0x2A => service2A(request, subs, room),
        0x31 => spoken(request, service31(request, room)),
        0x28 => spoken(request, service28(request, room)),
        0x2F => spoken(request, service2F(request, room)),
        0x34 => spoken(request, service34(request, room)),
        0x36 => spoken(request, service36(request, room)),
        0x37 => spoken(request, service37(request, room)),
        0x38 => spoken(request, service38(request, room)),
        _ => request.refused(Nrc::SERVICE_NOT_SUPPORTED),
    }
}

// No service row is 0x11, the session not in its list 0x7F.
pub fn guarded(
    sid: u8,
    request: &Request,
    k: &mut Security,
    subs: &mut Subscriptions,
    room: &mut Room,
) -> Wanted
    ensures { Serves (guarded sid) (seen_in request.now k.old subs.old) k.old subs.old request.now.frames room.old result k.new subs.new room.new }
{
    let row = config::find_service(request.config, sid);
    let Some(_) = row else {
        return request.refused(Nrc::SERVICE_NOT_SUPPORTED);
    };
    if !config::allowed_in(request.config, row, request.session) {
        return request.refused(Nrc::SERVICE_NOT_SUPPORTED_IN_ACTIVE_SESSION);
    }
    serve(sid, request, k, subs, room)
}
