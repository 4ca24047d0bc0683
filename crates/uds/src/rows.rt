// The rows of a configuration as records, with the Rust's presets. What each means is a row of the definition.
ghost use Rattle.std.specs.Prelude.{◌≡◌, [], length, nat_le};
ghost use Rattle.model.specs.Numbers.{max_listed};
ghost use Rattle.model.specs.Config as Model;
ghost use Rattle.uds.specs.Rows.{held_of, list_of, session_of, service_of, did_of, level_of, preset_session, service_with, did_with, at_least, secured_by};

use super::clock::Duration;
use super::frame::byte;
use super::nrc::{DEFAULT_P2, DEFAULT_P2_EXT, DEFAULT_S3, Rate};

// A row's list has at most eight sessions, a seed or a key at most 32 bytes.
pub const MAX_LISTED: u32 = 8;

pub const MAX_SEED: u32 = 32;

// A list of sessions. It holds the first eight, and 0 where there are fewer: of a longer one the count tells, and no configuration
// that keeps the numbers takes it. It is of fixed size, since there is no heap.
#[derive(Clone, Copy)]
pub struct SessionList {
    pub sessions: [u8; 8],
    pub count: usize,
}

impl SessionList {
    pub fn of(sessions: &[u8]) -> SessionList
        ensures { result ≡ held_of sessions.now }
    {
        SessionList {
            sessions: std::array::from_fn(|i| byte(sessions, i)),
            count: sessions.len(),
        }
    }

    pub fn within(self) -> bool
        ensures { result ≡ nat_le (length (list_of self)) max_listed }
    {
        self.count <= MAX_LISTED as usize
    }
}

#[derive(Clone, Copy)]
pub struct SessionConfig {
    pub session_type: u8,
    pub p2_timeout: Duration,
    pub p2_extended_timeout: Duration,
    pub s3_timeout: Duration,
}

impl SessionConfig {
    // A session with the default spans.
    fn preset(session_type: u8) -> SessionConfig
        ensures { session_of result ≡ preset_session session_type }
    {
        SessionConfig {
            session_type,
            p2_timeout: DEFAULT_P2,
            p2_extended_timeout: DEFAULT_P2_EXT,
            s3_timeout: DEFAULT_S3,
        }
    }

    pub fn default_session() -> SessionConfig
        ensures { session_of result ≡ preset_session 1 }
    {
        Self::preset(0x01)
    }

    pub fn programming_session() -> SessionConfig
        ensures { session_of result ≡ preset_session 2 }
    {
        Self::preset(0x02)
    }

    pub fn extended_session() -> SessionConfig
        ensures { session_of result ≡ preset_session 3 }
    {
        Self::preset(0x03)
    }

    pub fn within(self) -> bool
        ensures { result ≡ Model.session_within (session_of self) }
    {
        self.p2_timeout.within() && self.p2_extended_timeout.within() && self.s3_timeout.within()
    }
}

// The Rust's `security_level` of a service is kept in the record; no rule reads it, and the image has no word for it.
#[derive(Clone, Copy)]
pub struct ServiceConfig {
    pub service_id: u8,
    pub supported_in: SessionList,
    pub security_level: u8,
}

impl ServiceConfig {
    pub fn new(service_id: u8, supported_in: &[u8]) -> ServiceConfig
        ensures { result ≡ service_with service_id supported_in.now 0 }
    {
        Self::secured(service_id, supported_in, 0)
    }

    pub fn secured(service_id: u8, supported_in: &[u8], security_level: u8) -> ServiceConfig
        ensures { result ≡ service_with service_id supported_in.now security_level }
    {
        ServiceConfig {
            service_id,
            supported_in: SessionList::of(supported_in),
            security_level,
        }
    }

    pub fn within(self) -> bool
        ensures { result ≡ Model.service_within (service_of self) }
    {
        self.supported_in.within()
    }
}

// The Rust's `periodic` of an identifier is kept in the record; no rule reads it, and the image has no word for it.
#[derive(Clone, Copy)]
pub struct DidConfig {
    pub identifier: u16,
    pub readable_in: SessionList,
    pub writable_in: SessionList,
    pub security_level: u8,
    pub periodic: bool,
    pub min_periodic_interval: Duration,
}

impl DidConfig {
    pub fn read_only(identifier: u16, readable_in: &[u8]) -> DidConfig
        ensures { result ≡ did_with identifier readable_in.now [] }
    {
        Self::read_write(identifier, readable_in, &[])
    }

    pub fn read_write(identifier: u16, readable_in: &[u8], writable_in: &[u8]) -> DidConfig
        ensures { result ≡ did_with identifier readable_in.now writable_in.now }
    {
        DidConfig {
            identifier,
            readable_in: SessionList::of(readable_in),
            writable_in: SessionList::of(writable_in),
            security_level: 0,
            periodic: false,
            min_periodic_interval: Rate::FAST,
        }
    }

    pub fn periodic(mut self, min_interval: Duration) -> DidConfig
        ensures { result ≡ at_least self min_interval }
    {
        self.periodic = true;
        self.min_periodic_interval = min_interval;
        self
    }

    pub fn secured(mut self, level: u8) -> DidConfig
        ensures { result ≡ secured_by self level }
    {
        self.security_level = level;
        self
    }

    pub fn within(self) -> bool
        ensures { result ≡ Model.did_within (did_of self) }
    {
        self.readable_in.within()
            && self.writable_in.within()
            && self.min_periodic_interval.within()
    }
}

#[derive(Clone, Copy)]
pub struct SecurityLevelConfig {
    pub level: u8,
    pub max_attempts: u8,
    pub lockout_duration: Duration,
    pub seed_length: usize,
    pub key_length: usize,
}

impl SecurityLevelConfig {
    pub fn within(self) -> bool
        ensures { result ≡ Model.level_within (level_of self) }
    {
        self.lockout_duration.within()
            && self.seed_length <= MAX_SEED as usize
            && self.key_length <= MAX_SEED as usize
    }
}
