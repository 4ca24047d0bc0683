// Which act a request would ask: the services' own questions behind one function, and the rules that come right before them. It only reads.
#![tactic(auto)]

ghost use Rattle.std.specs.Prelude.{◌≡◌};
ghost use Rattle.model.specs.Service.{Seen, Effect};
ghost use Rattle.service.specs.Act.{act_of, asked_of};
ghost use Rattle.dispatch.specs.Rules.{service, guarded};
ghost use Rattle.asking.specs.Seen.{asked_in};

use access::service27::ask27;
use control::service2F::ask2F;
use control::service31::ask31;
use data::service2E::ask2E;
use management::service11::ask11;
use management::service28::ask28;
use security::Security;
use service::{Act, Request};
use transfer::service34::ask34;
use transfer::service36::ask36;
use transfer::service37::ask37;
use transfer::service38::ask38;

// None where the service refuses before its act.
fn act(ask: Result<Act, u8>) -> Act
    ensures { (v : Seen) (e : Effect) → act_of result ≡ (asked_of ask v e).act }
{
    match ask {
        Err(_) => Act::none(),
        Ok(act) => act,
    }
}

// The act of the service that the first byte names. The promise is for all that a question is not handed: outcome, values, subscriptions, who asks.
fn ask(sid: u8, request: &Request, k: &Security) -> Act
    ensures { (v : Seen) → act_of result ≡ (service sid (asked_in request.now k.now v)).act }
{
    match sid {
        0x11 => act(ask11(request)),
        0x27 => act(ask27(request, k)),
        0x2E => act(ask2E(request)),
        0x31 => act(ask31(request)),
        0x28 => act(ask28(request)),
        0x2F => act(ask2F(request)),
        0x34 => act(ask34(request)),
        0x36 => act(ask36(request)),
        0x37 => ask37(request),
        0x38 => act(ask38(request)),
        _ => Act::none(),
    }
}

// None where no service row is there, or the session is not in its list.
pub fn asked(sid: u8, request: &Request, k: &Security) -> Act
    ensures { (v : Seen) → act_of result ≡ (guarded sid (asked_in request.now k.now v)).act }
{
    let row = config::find_service(request.config, sid);
    let Some(_) = row else {
        return Act::none();
    };
    if !config::allowed_in(request.config, row, request.session) {
        return Act::none();
    }
    ask(sid, request, k)
}
