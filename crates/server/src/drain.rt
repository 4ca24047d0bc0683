// Drain: the waiting frames as records in a lent buffer.
ghost use Rattle.std.specs.Prelude.{◌≡◌};
ghost use Rattle.model.specs.Numbers.{max_frame};
ghost use Rattle.model.specs.Drain as Model;
ghost use Rattle.server.specs.View.{server_of, drained_of};

use super::fresh::Server;

// The server comes back whatever the result is, so no Result holds it; the number is the lent door's.
#[repr(C)]
#[derive(Clone, Copy)]
pub struct ServerDrained {
    pub server: Server,
    pub result: u8,
    pub frames: u8,
}

impl Server {
    pub fn drain(self, out: &mut [u8]) -> ServerDrained
        ensures { drained_of result out.new ≡ Model.drain max_frame (server_of self) out.old }
    {
        let d = calls::drain::drain(
            &self.config,
            self.state,
            &self.security,
            &self.subscriptions,
            &self.heads,
            &self.room,
            out,
        );
        ServerDrained {
            server: Server {
                state: d.state,
                ..self
            },
            result: d.result,
            frames: d.frames,
        }
    }
}
