// Complete and fail: the final answer of a pending request.
ghost use Rattle.std.specs.Prelude.{◌≡◌};
ghost use Rattle.model.specs.Numbers.{max_frame};
ghost use Rattle.model.specs.Pending as Model;
ghost use Rattle.server.specs.View.{server_of, step_of};

use super::fresh::Server;
use uds::clock::Instant;

// The server comes back whatever the result is, so no Result holds it; the number is the lent door's.
#[repr(C)]
#[derive(Clone, Copy)]
pub struct ServerAnswer {
    pub server: Server,
    pub result: u8,
}

impl Server {
    pub fn complete(self, t: Instant, payload: &[u8]) -> ServerAnswer
        ensures { step_of result ≡ Model.complete max_frame (server_of self) t.0 payload.now }
    {
        let mut server = self;
        let own = &mut server;
        let r = calls::pending::complete(
            &own.config,
            own.state,
            &own.security,
            &own.subscriptions,
            &mut own.heads,
            &mut own.room,
            t,
            payload,
        );
        server.state = r.state;
        ServerAnswer {
            server,
            result: r.result,
        }
    }

    pub fn fail(self, t: Instant, code: u8) -> ServerAnswer
        ensures { step_of result ≡ Model.fail max_frame (server_of self) t.0 code }
    {
        let mut server = self;
        let own = &mut server;
        let r = calls::pending::fail(
            &own.config,
            own.state,
            &own.security,
            &own.subscriptions,
            &mut own.heads,
            &mut own.room,
            t,
            code,
        );
        server.state = r.state;
        ServerAnswer {
            server,
            result: r.result,
        }
    }
}
