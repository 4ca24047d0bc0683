// A request, and the question which act it would ask.
ghost use Rattle.std.specs.Prelude.{◌≡◌};
ghost use Rattle.model.specs.Numbers.{max_frame};
ghost use Rattle.model.specs.Request as Request;
ghost use Rattle.model.specs.Question as Question;
ghost use Rattle.calls.specs.Request.{request_of};
ghost use Rattle.calls.specs.View.{inbound_of, asked_of};
ghost use Rattle.server.specs.View.{server_of, answered_of};

use super::fresh::Server;
use calls::question::Asked;
use service::Act;
use uds::clock::Instant;

// The server comes back whatever the result is, so no Result holds it; the number is the lent door's.
#[repr(C)]
#[derive(Clone, Copy)]
pub struct ServerAnswered {
    pub server: Server,
    pub result: u8,
    pub act: Act,
}

impl Server {
    pub fn request(
        self,
        t: Instant,
        src: u32,
        dst: u32,
        frame: &[u8],
        err: u8,
        given: &[u8],
        values: &[u32],
        pool: &[u8],
    ) -> ServerAnswered
        ensures { answered_of result ≡ Request.request max_frame (server_of self) (request_of t.0 src dst frame.now err given.now values.now pool.now) }
    {
        let mut server = self;
        let own = &mut server;
        let r = calls::request::request(
            &own.config,
            own.state,
            &mut own.security,
            &mut own.subscriptions,
            &mut own.heads,
            &mut own.room,
            t,
            src,
            dst,
            frame,
            err,
            given,
            values,
            pool,
        );
        server.state = r.state;
        ServerAnswered {
            server,
            result: r.result,
            act: r.act,
        }
    }

    // It only reads, so the server is not handed back.
    pub fn question(self, t: Instant, src: u32, dst: u32, frame: &[u8]) -> Asked
        ensures { asked_of result ≡ Question.question max_frame (server_of self) (inbound_of t.0 src dst frame.now) }
    {
        calls::question::question(
            &self.config,
            self.state,
            &self.security,
            &self.subscriptions,
            &self.heads,
            &self.room,
            t,
            src,
            dst,
            frame,
        )
    }
}
