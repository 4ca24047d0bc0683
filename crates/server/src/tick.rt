// A tick: S3, the pending request, the due subscriptions.
ghost use Rattle.std.specs.Prelude.{◌≡◌};
ghost use Rattle.model.specs.Numbers.{max_frame};
ghost use Rattle.model.specs.Tick as Model;
ghost use Rattle.uds.specs.Values.{table_of};
ghost use Rattle.server.specs.View.{server_of, ticked_of};

use super::fresh::Server;
use uds::clock::Instant;

// The server comes back whatever the result is, so no Result holds it; the numbers are the lent door's.
#[repr(C)]
#[derive(Clone, Copy)]
pub struct ServerTicked {
    pub server: Server,
    pub result: u8,
    pub err: u8,
}

impl Server {
    pub fn tick(self, t: Instant, values: &[u32], pool: &[u8]) -> ServerTicked
        ensures { ticked_of result ≡ Model.tick max_frame (server_of self) t.0 (table_of values.now pool.now) }
    {
        let mut server = self;
        let own = &mut server;
        let r = calls::tick::tick(
            &own.config,
            own.state,
            &mut own.security,
            &mut own.subscriptions,
            &mut own.heads,
            &mut own.room,
            t,
            values,
            pool,
        );
        server.state = r.state;
        ServerTicked {
            server,
            result: r.result,
            err: r.err,
        }
    }
}
