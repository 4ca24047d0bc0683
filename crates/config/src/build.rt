// Builders of a configuration, in the Rust's names. What no longer keeps the numbers is never taken in part: the configuration
// becomes an overfull one, stays so, and `within` says it.
ghost use Rattle.std.specs.Prelude.{◌≡◌, ◌+◌, ◌*◌, ◌%◌, ◌^◌, ◌≤◌, ◌<◌, ◌&&◌, [], nat_lt, length, get_or};
ghost use Rattle.std.proofs.Math.Seq.{paste};
ghost use Rattle.model.specs.Tests.{pick};
ghost use Rattle.model.specs.Config as Model;
ghost use Rattle.config.specs.View.{config_of};
ghost use Rattle.uds.specs.Rows.{session_of, service_of, did_of, level_of};
ghost use Rattle.config.specs.Build.{bare, settled, row_put, overfull_words, add_session, add_service, add_did, add_level, list_words, session_row, service_row, did_row, level_row};

use super::{Config, DIDS, FUNCTIONAL, LEVELS, PHYSICAL, SERVICES, SESSIONS, Table, within};
use uds::rows::{DidConfig, SecurityLevelConfig, ServiceConfig, SessionConfig, SessionList};

// The low 32 bits of a number: the number itself, where it keeps the limits.
fn low(x: u64) -> u32
    ensures { result ≡ x % 2 ^ 32 }
{
    (x % 0x1_0000_0000) as u32
}

// A row's words written from a place on.
fn put(words: &mut [u32], at: usize, row: &[u32])
    requires { at + length row.now ≤ length words.old }
    ensures { words.new ≡ paste words.old at row.now (length row.now) }
{
    words[at..at + row.len()].copy_from_slice(row);
}

// The configuration that tells of rows that found no room: it has nine sessions.
fn overfull() -> Config
    ensures { result ≡ overfull_words }
{
    let mut config = [0u32; 3006];
    config[SESSIONS.counter] = 9;
    config
}

// No rows.
pub fn new(physical_address: u16, functional_address: u16) -> Config
    ensures { config_of result ≡ bare physical_address functional_address }
{
    let mut config = [0u32; 3006];
    config[PHYSICAL] = u32::from(physical_address);
    config[FUNCTIONAL] = u32::from(functional_address);
    config
}

// One more row: its words from `at` on, and the table's count.
fn grown(mut config: Config, counter: usize, at: usize, row: &[u32]) -> Config
    requires { (counter < 6) × (get_or config counter 0 < 128) × (at + length row.now ≤ 3006) }
    ensures { result ≡ row_put config counter at row.now }
{
    config[counter] += 1;
    put(&mut config, at, row);
    config
}

// One more row behind those of its table, where there is room for it, the row keeps the numbers, and so does the configuration.
fn with_row(config: Config, table: Table, keeps: bool, row: &[u32]) -> Config
    requires { (table.counter < 6) × (table.most ≤ 128) × (table.key.from + table.most * table.key.step ≤ 3006) × (length row.now ≤ table.key.step) }
    ensures { result ≡ pick ((Model.within (config_of config) && nat_lt (get_or config table.counter 0) table.most) && keeps) (row_put config table.counter (table.key.from + get_or config table.counter 0 * table.key.step) row.now) overfull_words }
{
    let n = table.count(&config);
    if !(within(&config) && n < table.most && keeps) {
        return overfull();
    }
    let at = table.key.from + n * table.key.step;
    grown(config, table.counter, at, row)
}

fn session_row(s: SessionConfig) -> [u32; 4]
    ensures { result ≡ session_row s }
{
    [
        u32::from(s.session_type),
        low(s.p2_timeout.0),
        low(s.p2_extended_timeout.0),
        low(s.s3_timeout.0),
    ]
}

// A list takes nine words: its count, and eight sessions.
fn list_words(list: SessionList) -> [u32; 9]
    ensures { result ≡ list_words list [] }
{
    let l = list.sessions;
    [
        low(list.count as u64),
        u32::from(l[0]),
        u32::from(l[1]),
        u32::from(l[2]),
        u32::from(l[3]),
        u32::from(l[4]),
        u32::from(l[5]),
        u32::from(l[6]),
        u32::from(l[7]),
    ]
}

fn service_row(s: ServiceConfig) -> [u32; 10]
    ensures { result ≡ service_row s }
{
    let mut row = [0u32; 10];
    row[0] = u32::from(s.service_id);
    put(&mut row, 1, &list_words(s.supported_in));
    row
}

fn did_row(d: DidConfig) -> [u32; 21]
    ensures { result ≡ did_row d }
{
    let mut row = [0u32; 21];
    row[0] = u32::from(d.identifier);
    row[1] = u32::from(d.security_level);
    row[2] = low(d.min_periodic_interval.0);
    put(&mut row, 3, &list_words(d.readable_in));
    put(&mut row, 12, &list_words(d.writable_in));
    row
}

fn level_row(l: SecurityLevelConfig) -> [u32; 5]
    ensures { result ≡ level_row l }
{
    [
        u32::from(l.level),
        u32::from(l.max_attempts),
        low(l.lockout_duration.0),
        low(l.seed_length as u64),
        low(l.key_length as u64),
    ]
}

// One more session, at the end.
pub fn with_session(config: Config, s: SessionConfig) -> Config
    ensures { config_of result ≡ settled (add_session (config_of config) (session_of s)) }
{
    with_row(config, SESSIONS, s.within(), &session_row(s))
}

pub fn with_service(config: Config, s: ServiceConfig) -> Config
    ensures { config_of result ≡ settled (add_service (config_of config) (service_of s)) }
{
    with_row(config, SERVICES, s.within(), &service_row(s))
}

pub fn with_did(config: Config, d: DidConfig) -> Config
    ensures { config_of result ≡ settled (add_did (config_of config) (did_of d)) }
{
    with_row(config, DIDS, d.within(), &did_row(d))
}

pub fn with_security_level(config: Config, l: SecurityLevelConfig) -> Config
    ensures { config_of result ≡ settled (add_level (config_of config) (level_of l)) }
{
    with_row(config, LEVELS, l.within(), &level_row(l))
}
