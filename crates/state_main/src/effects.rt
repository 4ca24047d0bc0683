// What a service wants, carried out: a reply to tester 3712 for service 31, and session 3 opened.
use super::edges::received;
use config::Config;
use lines::Line;
use queue::reply::{Asker, Reply};
use queue::{Heads, Room};
use security::Security;
use state::State;
use state::apply::{Effect, apply};
use std::io;
use uds::clock::Instant;

// The tester, by a request that was addressed so.
fn tester(functional: bool) -> Asker {
    Asker {
        functional,
        to: 3712,
        sid: 0x31,
    }
}

// Session 3 opened, and a reply.
fn effect(reply: Reply, waits: bool) -> Effect {
    Effect {
        reply,
        session: 3,
        level: 0,
        subscriptions: 0,
        clears_seed: false,
        waits,
    }
}

// Carried out at a time, and told.
fn carried(
    rt: &HostRuntime,
    what: &[u8],
    c: &Config,
    s: State,
    heads: &mut Heads,
    room: &mut Room,
    t: u64,
    functional: bool,
    e: Effect,
) -> io::Result<State> {
    let a = apply(
        c,
        s,
        &mut [0; 68],
        heads,
        room,
        tester(functional),
        Instant(t),
        e,
    );
    let state = a.state;
    let session = state.session;
    let pending = state.pending;
    Line::new()
        .text(what)
        .number(u64::from(a.result))
        .number(u64::from(session.session_type))
        .number(u64::from(state.frames))
        .flag(pending.on)
        .number(pending.deadline.0)
        .print(rt)?;
    Ok(state)
}

// Nothing said, a code that is withheld after a functional request, one that is not, and 78 now and at the end of the clock.
fn replies(rt: &HostRuntime, c: &Config) -> io::Result<()> {
    let mut h = [0u32; 32];
    let mut room = [0u8; 4353];
    let silent = effect(Reply::Silent, false);
    let mut s = carried(
        rt,
        b"silent:",
        c,
        State::new(),
        &mut h,
        &mut room,
        100,
        true,
        silent,
    )?;
    let withheld = effect(Reply::Negative(0x31), false);
    s = carried(
        rt,
        b"withheld:",
        c,
        s,
        &mut h,
        &mut room,
        100,
        true,
        withheld,
    )?;
    let sent = effect(Reply::Negative(0x33), false);
    s = carried(rt, b"sent:", c, s, &mut h, &mut room, 100, true, sent)?;
    let pends = effect(Reply::Pends, false);
    s = carried(rt, b"pends:", c, s, &mut h, &mut room, 100, true, pends)?;
    carried(
        rt,
        b"pends at the end:",
        c,
        s,
        &mut h,
        &mut room,
        Instant::LAST,
        true,
        pends,
    )?;
    Ok(())
}

// Sixteen wait: a change that does not wait for its reply is made, and one that does is not.
fn full(rt: &HostRuntime, c: &Config) -> io::Result<()> {
    let mut h = [1u32; 32];
    let mut room = [0u8; 4353];
    let mut s = State::new();
    s.frames = 16;
    let at_once = effect(Reply::Positive(2), false);
    carried(
        rt,
        b"made, then 3:",
        c,
        s,
        &mut h,
        &mut room,
        100,
        false,
        at_once,
    )?;
    let waits = effect(Reply::Positive(2), true);
    carried(
        rt,
        b"3, so not made:",
        c,
        s,
        &mut h,
        &mut room,
        100,
        false,
        waits,
    )?;
    s.frames = 15;
    carried(
        rt,
        b"the sixteenth, so made:",
        c,
        s,
        &mut h,
        &mut room,
        100,
        false,
        waits,
    )?;
    Ok(())
}

// Session 3 and level 3, five subscriptions, and the seed cleared or not. The clock went back: the last request was at 500, and this one is at 100.
fn seeded(
    rt: &HostRuntime,
    what: &[u8],
    c: &Config,
    frames: u8,
    functional: bool,
    clears_seed: bool,
    waits: bool,
) -> io::Result<()> {
    let mut k: Security = [0; 68];
    security::seed(&mut k, 3, b"\x01\x02\x03\x04");
    let mut s = received(500);
    s.frames = frames;
    let e = Effect {
        reply: Reply::Positive(2),
        session: 3,
        level: 3,
        subscriptions: 5,
        clears_seed,
        waits,
    };
    let a = apply(
        c,
        s,
        &mut k,
        &mut [1; 32],
        &mut [0; 4353],
        tester(functional),
        Instant(100),
        e,
    );
    let state = a.state;
    let then = state.session;
    Line::new()
        .text(what)
        .number(u64::from(a.result))
        .number(k[0])
        .number(u64::from(then.session_type))
        .number(u64::from(then.level))
        .number(u64::from(state.subscriptions))
        .number(then.last_rx.0)
        .flag(state.functional)
        .print(rt)?;
    Ok(())
}

pub(crate) fn run(rt: &HostRuntime, c: &Config) -> io::Result<()> {
    replies(rt, c)?;
    full(rt, c)?;
    seeded(rt, b"seed kept:", c, 0, false, false, false)?;
    seeded(rt, b"seed cleared:", c, 0, false, true, true)?;
    seeded(rt, b"3, so seed kept:", c, 16, false, true, true)?;
    seeded(rt, b"seed cleared, then 3:", c, 16, false, true, false)?;
    seeded(rt, b"functional:", c, 0, true, true, false)?;
    Ok(())
}
