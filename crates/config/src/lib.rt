// The configuration: a lent image of words, and what is read from it. Only this crate knows where its words stand.
#![tactic(auto)]

ghost use Rattle.std.specs.Prelude.{◌≡◌, ◌+◌, ◌*◌, get_or, nat_le};
ghost use Rattle.model.specs.Tests.{memb};
ghost use Rattle.model.specs.Numbers.{max_seed};
ghost use Rattle.model.specs.Config as Model;
ghost use Rattle.uds.specs.Table.{column, key_place, place_of, row_of, Finds};
ghost use Rattle.config.specs.View.{capped, list_at, session_at, service_at, did_at, level_at, session_count, service_count, did_count, level_count, config_of, allowed, seed_length_of, key_length_of};

pub mod build;

use uds::clock::Duration;
use uds::nrc::{
    DEFAULT_LOCKOUT, DEFAULT_MAX_SECURITY_ATTEMPTS, DEFAULT_P2, DEFAULT_P2_EXT, DEFAULT_S3,
};
use uds::rows::{MAX_LISTED, MAX_SEED};
use uds::table::{Column, word};

// How many rows of each kind there may be.
pub const MAX_SESSIONS: usize = 8;

pub const MAX_SERVICES: usize = 24;

pub const MAX_DIDS: usize = 128;

pub const MAX_SECURITY_LEVELS: usize = 8;

// The image: two addresses, four counts, then the rows. A session list is a count and eight entries. It is words because C lends it.
pub type Config = [u32; 3006];

const PHYSICAL: usize = 0;

const FUNCTIONAL: usize = 1;

// One of the four tables: where its count stands, how many rows it may have, and where the key of each row stands, which is its first word.
#[derive(Clone, Copy)]
struct Table {
    counter: usize,
    most: usize,
    key: Column,
}

const SESSIONS: Table = Table {
    counter: 2,
    most: MAX_SESSIONS,
    key: Column { from: 6, step: 4 },
};

const P2: Column = Column { from: 7, step: 4 };

const P2_EXT: Column = Column { from: 8, step: 4 };

const S3: Column = Column { from: 9, step: 4 };

const SERVICES: Table = Table {
    counter: 3,
    most: MAX_SERVICES,
    key: Column { from: 38, step: 10 },
};

const SUPPORTED_IN: Column = Column { from: 39, step: 10 };

const DIDS: Table = Table {
    counter: 4,
    most: MAX_DIDS,
    key: Column {
        from: 278,
        step: 21,
    },
};

const DID_LEVEL: Column = Column {
    from: 279,
    step: 21,
};

const MIN_INTERVAL: Column = Column {
    from: 280,
    step: 21,
};

const READABLE_IN: Column = Column {
    from: 281,
    step: 21,
};

const WRITABLE_IN: Column = Column {
    from: 290,
    step: 21,
};

const LEVELS: Table = Table {
    counter: 5,
    most: MAX_SECURITY_LEVELS,
    key: Column {
        from: 2966,
        step: 5,
    },
};

const MAX_ATTEMPTS: Column = Column {
    from: 2967,
    step: 5,
};

const LOCKOUT: Column = Column {
    from: 2968,
    step: 5,
};

const SEED_LENGTH: Column = Column {
    from: 2969,
    step: 5,
};

const KEY_LENGTH: Column = Column {
    from: 2970,
    step: 5,
};

impl Table {
    fn count(self, config: &[u32]) -> usize
        ensures { result ≡ get_or config.now self.counter 0 }
    {
        word(config, self.counter) as usize
    }

    // It has no more rows than it may have.
    fn within(self, words: &[u32]) -> bool
        ensures { result ≡ nat_le (get_or words.now self.counter 0) self.most }
    {
        self.count(words) <= self.most
    }

    // The first row that has the key.
    fn find(self, config: &[u32], key: u32) -> Option<usize>
        ensures { place_of result ≡ key_place config.now self.key.from self.key.step (get_or config.now self.counter 0) key }
    {
        self.key.find(config, self.count(config), key)
    }
}

pub fn physical(config: &Config) -> u32
    ensures { result ≡ (config_of config.now).physical }
{
    config[PHYSICAL]
}

pub fn functional(config: &Config) -> u32
    ensures { result ≡ (config_of config.now).functional }
{
    config[FUNCTIONAL]
}

pub fn session_count(config: &Config) -> usize
    ensures { result ≡ session_count config.now }
{
    SESSIONS.count(config)
}

pub fn service_count(config: &Config) -> usize
    ensures { result ≡ service_count config.now }
{
    SERVICES.count(config)
}

pub fn did_count(config: &Config) -> usize
    ensures { result ≡ did_count config.now }
{
    DIDS.count(config)
}

pub fn security_level_count(config: &Config) -> usize
    ensures { result ≡ level_count config.now }
{
    LEVELS.count(config)
}

pub fn find_session(config: &Config, session_type: u8) -> Option<usize>
    ensures { Finds (Model.is_session session_type) (session_at config.now) (session_count config.now) result }
{
    SESSIONS.find(config, session_type as u32)
}

pub fn find_service(config: &Config, service_id: u8) -> Option<usize>
    ensures { Finds (Model.is_service service_id) (service_at config.now) (service_count config.now) result }
{
    SERVICES.find(config, service_id as u32)
}

pub fn find_did(config: &Config, identifier: u16) -> Option<usize>
    ensures { Finds (Model.is_did identifier) (did_at config.now) (did_count config.now) result }
{
    DIDS.find(config, identifier as u32)
}

pub fn find_security_level(config: &Config, level: u8) -> Option<usize>
    ensures { Finds (Model.is_level level) (level_at config.now) (level_count config.now) result }
{
    LEVELS.find(config, level as u32)
}

// A span that a row says.
fn span(config: &[u32], at: Column, i: usize) -> Duration
    ensures { result.0 ≡ column config.now at.from at.step i }
{
    Duration(u64::from(at.cell(config, i)))
}

// A length that a row says, of which no more than a seed's greatest counts.
fn length(config: &[u32], at: Column, i: usize) -> usize
    ensures { result ≡ capped (column config.now at.from at.step i) max_seed }
{
    at.cell(config, i).min(MAX_SEED) as usize
}

// What a row that was found says, or the default where none was.
pub fn p2(config: &Config, session: Option<usize>) -> Duration
    ensures { result.0 ≡ Model.p2_of (row_of (session_at config.now) session) }
{
    session.map_or(DEFAULT_P2, |i| span(config, P2, i))
}

pub fn p2_ext(config: &Config, session: Option<usize>) -> Duration
    ensures { result.0 ≡ Model.p2_ext_of (row_of (session_at config.now) session) }
{
    session.map_or(DEFAULT_P2_EXT, |i| span(config, P2_EXT, i))
}

pub fn s3(config: &Config, session: Option<usize>) -> Duration
    ensures { result.0 ≡ Model.s3_of (row_of (session_at config.now) session) }
{
    session.map_or(DEFAULT_S3, |i| span(config, S3, i))
}

// The level that an identifier needs.
pub fn did_level(config: &Config, did: Option<usize>) -> u32
    ensures { result ≡ Model.level_of (row_of (did_at config.now) did) }
{
    did.map_or(0, |i| DID_LEVEL.cell(config, i))
}

pub fn min_interval(config: &Config, did: Option<usize>) -> Duration
    ensures { result.0 ≡ Model.min_interval_of (row_of (did_at config.now) did) }
{
    did.map_or(Duration::ZERO, |i| span(config, MIN_INTERVAL, i))
}

pub fn max_attempts(config: &Config, level: Option<usize>) -> u32
    ensures { result ≡ Model.max_attempts_of (row_of (level_at config.now) level) }
{
    level.map_or(DEFAULT_MAX_SECURITY_ATTEMPTS, |i| {
        MAX_ATTEMPTS.cell(config, i)
    })
}

pub fn lockout(config: &Config, level: Option<usize>) -> Duration
    ensures { result.0 ≡ Model.lockout_of (row_of (level_at config.now) level) }
{
    level.map_or(DEFAULT_LOCKOUT, |i| span(config, LOCKOUT, i))
}

pub fn seed_length(config: &Config, level: Option<usize>) -> usize
    ensures { result ≡ seed_length_of (row_of (level_at config.now) level) }
{
    level.map_or(0, |i| length(config, SEED_LENGTH, i))
}

pub fn key_length(config: &Config, level: Option<usize>) -> usize
    ensures { result ≡ key_length_of (row_of (level_at config.now) level) }
{
    level.map_or(0, |i| length(config, KEY_LENGTH, i))
}

// A session stands in the list of row `i`, whose count is the word of the column, and at most eight of its entries count.
fn listed(words: &[u32], list: Column, i: usize, session: u8) -> bool
    ensures { result ≡ memb session (list_at words.now (list.from + i * list.step)) }
{
    let n = list.cell(words, i).min(MAX_LISTED) as usize;
    if n == 0 {
        return false;
    }
    let entries = Column {
        from: list.from + i * list.step + 1,
        step: 1,
    };
    entries.find(words, n, session as u32).is_some()
}

// A row that was found lists the session; where none was found nothing is allowed.
pub fn allowed_in(config: &Config, service: Option<usize>, session: u8) -> bool
    ensures { result ≡ allowed session (row_of (service_at config.now) service) }
{
    service.is_some_and(|i| listed(config, SUPPORTED_IN, i, session))
}

pub fn readable_in(config: &Config, did: Option<usize>, session: u8) -> bool
    ensures { result ≡ Model.readable session (row_of (did_at config.now) did) }
{
    did.is_some_and(|i| listed(config, READABLE_IN, i, session))
}

pub fn writable_in(config: &Config, did: Option<usize>, session: u8) -> bool
    ensures { result ≡ Model.writable session (row_of (did_at config.now) did) }
{
    did.is_some_and(|i| listed(config, WRITABLE_IN, i, session))
}

pub fn service_allowed(config: &Config, service_id: u8, session_type: u8) -> bool
    ensures { result ≡ allowed session_type (Model.find_service (config_of config.now) service_id) }
{
    allowed_in(config, find_service(config, service_id), session_type)
}

pub fn did_readable(config: &Config, identifier: u16, session_type: u8) -> bool
    ensures { result ≡ Model.readable session_type (Model.find_did (config_of config.now) identifier) }
{
    readable_in(config, find_did(config, identifier), session_type)
}

pub fn did_writable(config: &Config, identifier: u16, session_type: u8) -> bool
    ensures { result ≡ Model.writable session_type (Model.find_did (config_of config.now) identifier) }
{
    writable_in(config, find_did(config, identifier), session_type)
}

// Words keep the numbers where their four counts do: what is read of a row is never outside them.
fn counts_within(words: &[u32]) -> bool
    ensures { result ≡ Model.within (config_of words.now) }
{
    SESSIONS.within(words) && SERVICES.within(words) && DIDS.within(words) && LEVELS.within(words)
}

// The configuration keeps the numbers.
pub fn within(config: &Config) -> bool
    ensures { result ≡ Model.within (config_of config.now) }
{
    counts_within(config)
}
