// Requests by the lent door, one after the other on one server: of each a line has the result, session, level, the act's number and, where a frame was
// queued, its record. F190 needs level 3: it is read before the key and after it.
use calls::drain::drain;
use calls::request::request;
use config::{Config, build};
use lines::Line;
use periodic::Subscriptions;
use queue::{Heads, Room};
use security::{Security, SecurityState};
use state::State;
use std::io;
use uds::clock::{Duration, Instant};
use uds::rows::{DidConfig, SecurityLevelConfig, ServiceConfig, SessionConfig};

// Sessions 1 and 3, the services 3E, 10, 27, 22 and 31 in both, identifier F190 behind level 3.
fn configured() -> Config {
    let both = b"\x01\x03";
    let a = build::with_session(build::new(16, 2015), SessionConfig::default_session());
    let b = build::with_session(a, SessionConfig::extended_session());
    let c = build::with_service(b, ServiceConfig::new(0x3E, both));
    let d = build::with_service(c, ServiceConfig::new(0x10, both));
    let e = build::with_service(d, ServiceConfig::new(0x27, both));
    let f = build::with_service(e, ServiceConfig::new(0x22, both));
    let g = build::with_service(f, ServiceConfig::new(0x31, both));
    let h = build::with_did(g, DidConfig::read_only(0xF190, both).secured(3));
    build::with_security_level(
        h,
        SecurityLevelConfig {
            level: 3,
            max_attempts: 3,
            lockout_duration: Duration(10_000),
            seed_length: 4,
            key_length: 4,
        },
    )
}

// One request from 3712, and a drain after it. F190 has the value 12 34.
fn ask(
    rt: &HostRuntime,
    what: &[u8],
    c: &Config,
    s: State,
    k: &mut Security,
    subs: &mut Subscriptions,
    heads: &mut Heads,
    room: &mut Room,
    t: u64,
    dst: u32,
    frame: &[u8],
    err: u8,
    given: &[u8],
) -> io::Result<State> {
    let a = request(
        c,
        s,
        k,
        subs,
        heads,
        room,
        Instant(t),
        3712,
        dst,
        frame,
        err,
        given,
        &[0xF190, 0, 0, 2],
        b"\x12\x34",
    );
    let left = a.state;
    let session = left.session;
    let act = a.act;
    let line = Line::new()
        .text(what)
        .number(u64::from(a.result))
        .number(u64::from(session.session_type))
        .number(u64::from(session.level))
        .number(u64::from(act.number));
    let mut out = [0u8; 64];
    let d = drain(c, left, k, subs, heads, room, &mut out);
    let next = d.state;
    if d.frames == 0 {
        line.print(rt)?;
        return Ok(next);
    }
    let rest = usize::from(uds::frame::byte(&out, 0));
    line.lower_hex(service::first(&out, 4 + rest)).print(rt)?;
    Ok(next)
}

// The key stands between: refused, unlocked, read.
fn keyed(
    rt: &HostRuntime,
    c: &Config,
    s: State,
    k: &mut Security,
    subs: &mut Subscriptions,
    heads: &mut Heads,
    room: &mut Room,
) -> io::Result<State> {
    let a = ask(
        rt,
        b"10 03:",
        c,
        s,
        k,
        subs,
        heads,
        room,
        100,
        16,
        b"\x10\x03",
        0,
        b"",
    )?;
    let b = ask(
        rt,
        b"22 F190:",
        c,
        a,
        k,
        subs,
        heads,
        room,
        200,
        16,
        b"\x22\xF1\x90",
        0,
        b"",
    )?;
    let seed = b"\x01\x02\x03\x04";
    let d = ask(
        rt,
        b"27 03:",
        c,
        b,
        k,
        subs,
        heads,
        room,
        300,
        16,
        b"\x27\x03",
        0,
        seed,
    )?;
    let key = b"\x27\x04\xAA\xBB\xCC\xDD";
    let e = ask(
        rt, b"27 04:", c, d, k, subs, heads, room, 400, 16, key, 0, b"",
    )?;
    Ok(ask(
        rt,
        b"22 F190:",
        c,
        e,
        k,
        subs,
        heads,
        room,
        500,
        16,
        b"\x22\xF1\x90",
        0,
        b"",
    )?)
}

// What is refused or dropped before a service is asked, and a request that is pending.
fn refused(
    rt: &HostRuntime,
    c: &Config,
    s: State,
    k: &mut Security,
    subs: &mut Subscriptions,
    heads: &mut Heads,
    room: &mut Room,
) -> io::Result<()> {
    let late = 0x1_0000_0000_0001;
    let a = ask(
        rt,
        b"to another:",
        c,
        s,
        k,
        subs,
        heads,
        room,
        600,
        17,
        b"\x3E\x00",
        0,
        b"",
    )?;
    let b = ask(
        rt,
        b"too late:",
        c,
        a,
        k,
        subs,
        heads,
        room,
        late,
        16,
        b"\x3E\x00",
        0,
        b"",
    )?;
    let d = ask(
        rt, b"empty:", c, b, k, subs, heads, room, 700, 16, b"", 0, b"",
    )?;
    let e = ask(
        rt,
        b"4096 bytes:",
        c,
        d,
        k,
        subs,
        heads,
        room,
        800,
        16,
        &[0x3E; 4096],
        0,
        b"",
    )?;
    let f = ask(
        rt,
        b"functional:",
        c,
        e,
        k,
        subs,
        heads,
        room,
        900,
        2015,
        b"\x22\xFF\xFF",
        0,
        b"",
    )?;
    let g = ask(
        rt,
        b"99:",
        c,
        f,
        k,
        subs,
        heads,
        room,
        1000,
        16,
        b"\x99\x00",
        0,
        b"",
    )?;
    let h = ask(
        rt,
        b"31:",
        c,
        g,
        k,
        subs,
        heads,
        room,
        1100,
        16,
        b"\x31\x01\x00\x01",
        0x78,
        b"",
    )?;
    ask(
        rt,
        b"busy:",
        c,
        h,
        k,
        subs,
        heads,
        room,
        1200,
        16,
        b"\x3E\x00",
        0,
        b"",
    )?;
    Ok(())
}

pub(crate) fn run(rt: &HostRuntime) -> io::Result<()> {
    let c = configured();
    let fresh = SecurityState::new();
    let mut k = fresh.words;
    let mut subs = [0u64; 64];
    let mut heads = [0u32; 32];
    let mut room = [0u8; 4353];
    let s = keyed(
        rt,
        &c,
        State::new(),
        &mut k,
        &mut subs,
        &mut heads,
        &mut room,
    )?;
    refused(rt, &c, s, &mut k, &mut subs, &mut heads, &mut room)?;
    Ok(())
}
