// A full configuration: 8 sessions, 24 services, 128 identifiers and 8 levels, with lists of 8. In each table one late row has the key
// of the second, so that a key is there twice and another is missing.
use super::show;
use super::show::{flag, value};
use config::{Config, build};
use std::io;
use uds::clock::Duration;
use uds::rows::{DidConfig, SecurityLevelConfig, ServiceConfig, SessionConfig};

// The key of a row: its number, and 1 for the twin of the second row.
fn key(i: u16, twin: u16) -> u16 {
    if i == twin { 1 } else { i }
}

fn low(x: u16) -> u8 {
    (x % 256) as u8
}

fn sessions(mut c: Config) -> Config {
    for i in 0..8 {
        let next = build::with_session(
            c,
            SessionConfig {
                session_type: low(key(i, 5)),
                p2_timeout: Duration(u64::from(i)),
                p2_extended_timeout: Duration(0xFFFF_FFFF),
                s3_timeout: Duration(0),
            },
        );
        c = next;
    }
    c
}

fn services(mut c: Config) -> Config {
    for i in 0..24 {
        let next = build::with_service(
            c,
            ServiceConfig::new(low(key(i, 20)), b"\x01\x02\x03\x04\x05\x06\x07\x08"),
        );
        c = next;
    }
    c
}

fn dids(mut c: Config) -> Config {
    let list = b"\x01\x02\x03\x04\x05\x06\x07\x08";
    for i in 0..128 {
        let next = build::with_did(c, DidConfig::read_write(key(i, 100), list, list));
        c = next;
    }
    c
}

fn levels(mut c: Config) -> Config {
    for i in 0..8 {
        let next = build::with_security_level(
            c,
            SecurityLevelConfig {
                level: low(key(i, 6)),
                max_attempts: low(i),
                lockout_duration: Duration(0xFFFF_FFFF),
                seed_length: 32,
                key_length: 32,
            },
        );
        c = next;
    }
    c
}

// The first row's key, the last row's, the one that is there twice, the one that is missing.
fn rows(rt: &HostRuntime, c: &Config) -> io::Result<()> {
    show::session(rt, c, 0)?;
    show::session(rt, c, 7)?;
    show::session(rt, c, 1)?;
    show::session(rt, c, 5)?;
    show::service(rt, c, 0)?;
    show::service(rt, c, 23)?;
    show::service(rt, c, 1)?;
    show::service(rt, c, 20)?;
    Ok(())
}

fn more_rows(rt: &HostRuntime, c: &Config) -> io::Result<()> {
    show::did(rt, c, 0)?;
    show::did(rt, c, 127)?;
    show::did(rt, c, 1)?;
    show::did(rt, c, 100)?;
    show::level(rt, c, 0)?;
    show::level(rt, c, 7)?;
    show::level(rt, c, 1)?;
    show::level(rt, c, 6)?;
    Ok(())
}

// What the last rows say, and the last entry of a list.
fn last(rt: &HostRuntime, c: &Config) -> io::Result<()> {
    let s = config::p2(c, config::find_session(c, 7));
    value(rt, b"P2 of session 7", s.0)?;
    let t = config::s3(c, config::find_session(c, 5));
    value(rt, b"S3 of no session", t.0)?;
    value(
        rt,
        b"attempts of level 7",
        u64::from(config::max_attempts(c, config::find_security_level(c, 7))),
    )?;
    flag(
        rt,
        b"identifier 127 read in session 8",
        config::did_readable(c, 127, 8),
    )?;
    flag(
        rt,
        b"identifier 127 written in session 9",
        config::did_writable(c, 127, 9),
    )?;
    flag(
        rt,
        b"service 23 in session 8",
        config::service_allowed(c, 23, 8),
    )?;
    Ok(())
}

// One more than there is room for.
fn past(rt: &HostRuntime, c: Config) -> io::Result<()> {
    let d = build::with_session(c, SessionConfig::default_session());
    flag(rt, b"a ninth session", config::within(&d))?;
    let e = build::with_service(c, ServiceConfig::new(99, b"\x01"));
    flag(rt, b"a 25th service", config::within(&e))?;
    let f = build::with_did(c, DidConfig::read_only(999, b"\x01"));
    flag(rt, b"a 129th identifier", config::within(&f))?;
    Ok(())
}

// Rows that do not keep the numbers.
fn outside(rt: &HostRuntime) -> io::Result<()> {
    let c = build::new(1, 2);
    let d = build::with_service(c, ServiceConfig::new(1, b"123456789"));
    flag(rt, b"a list of nine", config::within(&d))?;
    let long = DidConfig::read_only(1, b"\x01").periodic(Duration(0x1_0000_0000));
    let e = build::with_did(c, long);
    flag(rt, b"an interval of 2^32", config::within(&e))?;
    Ok(())
}

pub(crate) fn run(rt: &HostRuntime) -> io::Result<()> {
    let c = levels(dids(services(sessions(build::new(1, 2)))));
    flag(rt, b"full: within", config::within(&c))?;
    rows(rt, &c)?;
    more_rows(rt, &c)?;
    last(rt, &c)?;
    past(rt, c)?;
    outside(rt)?;
    Ok(())
}
