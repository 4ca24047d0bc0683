// The fixed configuration of `udstrace`, made by the builders.
#![tactic(auto)]

ghost use Rattle.std.specs.Prelude.{◌≡◌};
ghost use Rattle.model.specs.Fixed.{fixed_session, fixed_did, fixed_config};
ghost use Rattle.config.specs.View.{config_of};
ghost use Rattle.config.specs.Build.{settled, add_session, add_did, add_level};
ghost use Rattle.fixed.specs.Steps.{fixed_level, add_services};

use config::{Config, build};
use uds::clock::Duration;
use uds::rows::{DidConfig, SecurityLevelConfig, ServiceConfig, SessionConfig};

// The presets have the spans of `udstrace`.
fn sessions(config: Config) -> Config
    ensures { config_of result ≡ settled (add_session (settled (add_session (config_of config) (fixed_session 1))) (fixed_session 3)) }
{
    let first = build::with_session(config, SessionConfig::default_session());
    build::with_session(first, SessionConfig::extended_session())
}

// Each of these services in both sessions.
fn services(mut config: Config, ids: &[u8]) -> Config
    ensures { config_of result ≡ add_services (config_of config) ids.now }
{
    for id in ids {
        let next = build::with_service(config, ServiceConfig::new(*id, b"\x01\x03"));
        config = next;
    }
    config
}

// An identifier, read and written in both sessions, sent as often as is asked.
fn did(config: Config, identifier: u16, level: u8) -> Config
    ensures { config_of result ≡ settled (add_did (config_of config) (fixed_did identifier level)) }
{
    let both = b"\x01\x03";
    let row = DidConfig::read_write(identifier, both, both)
        .secured(level)
        .periodic(Duration::ZERO);
    build::with_did(config, row)
}

fn level(config: Config) -> Config
    ensures { config_of result ≡ settled (add_level (config_of config) fixed_level) }
{
    build::with_security_level(
        config,
        SecurityLevelConfig {
            level: 3,
            max_attempts: 3,
            lockout_duration: Duration(10_000),
            seed_length: 4,
            key_length: 4,
        },
    )
}

pub fn configuration() -> Config
    ensures { config_of result ≡ fixed_config }
{
    let opened = sessions(build::new(16, 2015));
    let served = services(
        opened,
        b"\x3E\x10\x11\x27\x22\x2E\x2A\x31\x28\x2F\x34\x36\x37\x38",
    );
    level(did(did(served, 0xF190, 3), 0xF201, 0))
}
