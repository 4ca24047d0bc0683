// The server by value: the state together with what is otherwise lent.
ghost use Rattle.std.specs.Prelude.{◌≡◌};
ghost use Rattle.config.specs.View.{config_of};
ghost use Rattle.model.specs.State as Model;
ghost use Rattle.server.specs.View.{server_of, fresh_of};

use config::Config;
use periodic::Subscriptions;
use queue::{Heads, Room};
use security::{Security, SecurityState};
use state::State;
use uds::result::{DONE, Refusal};

#[repr(C)]
#[derive(Clone, Copy)]
pub struct Server {
    pub config: Config,
    pub security: Security,
    pub subscriptions: Subscriptions,
    pub state: State,
    pub heads: Heads,
    pub room: Room,
}

// A server comes whatever the result is, so no Result holds it.
#[repr(C)]
#[derive(Clone, Copy)]
pub struct Fresh {
    pub server: Server,
    pub result: u8,
}

// A server of a configuration with nothing held, asked, subscribed or waiting.
fn empty_handed(config: Config) -> Server
    ensures { server_of result ≡ Model.fresh_state (config_of config) }
{
    let security = SecurityState::new().words;
    Server {
        config,
        security,
        subscriptions: [0; 64],
        state: State::new(),
        heads: [0; 32],
        room: [0; 4353],
    }
}

impl Server {
    // 7 and the fresh server of the empty configuration where the configuration does not keep the numbers.
    pub fn fresh(config: Config) -> Fresh
        ensures { fresh_of result ≡ Model.fresh (config_of config) }
    {
        if config::within(&config) {
            return Fresh {
                server: empty_handed(config),
                result: DONE,
            };
        }
        Fresh {
            server: empty_handed(config::build::new(0, 0)),
            result: Refusal::Configuration as u8,
        }
    }
}
