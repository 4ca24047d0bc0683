// Each number of a state, at its greatest and one above.
use config::Config;
use lines::Line;
use state::State;
use std::io;
use uds::clock::Instant;

// Valid beside a fresh security record.
fn valid(c: &Config, s: State) -> bool {
    state::valid::is_valid(c, s, &[0; 68], &[0; 64], &[1; 32], &[0; 4353])
}

fn pair(rt: &HostRuntime, name: &[u8], last: bool, past: bool) -> io::Result<()> {
    Line::new().text(name).flag(last).flag(past).print(rt)?;
    Ok(())
}

// Session, level and moment of the last request, how it was addressed, whether one is pending, subscriptions and frames; and that it is valid.
pub(crate) fn fresh(rt: &HostRuntime, c: &Config) -> io::Result<()> {
    let s = State::new();
    let session = s.session;
    let pending = s.pending;
    Line::new()
        .text(b"fresh:")
        .number(u64::from(session.session_type))
        .number(u64::from(session.level))
        .number(session.last_rx.0)
        .flag(s.functional)
        .flag(pending.on)
        .number(u64::from(s.subscriptions))
        .number(u64::from(s.frames))
        .flag(valid(c, s))
        .print(rt)?;
    Ok(())
}

// The last request was received then.
pub(crate) fn received(t: u64) -> State {
    let moment = Instant(t);
    let mut s = State::new();
    let mut session = s.session;
    session.last_rx = moment;
    s.session = session;
    s
}

fn pending(t: u64, on: bool) -> State {
    let moment = Instant(t);
    let mut s = State::new();
    let mut pending = s.pending;
    pending.deadline = moment;
    pending.on = on;
    s.pending = pending;
    s
}

pub(crate) fn moments(rt: &HostRuntime, c: &Config) -> io::Result<()> {
    let last = Instant::MAX_MOMENT;
    pair(
        rt,
        b"last request:",
        valid(c, received(last)),
        valid(c, received(last + 1)),
    )?;
    pair(
        rt,
        b"deadline:",
        valid(c, pending(last, true)),
        valid(c, pending(last + 1, true)),
    )?;
    Line::new()
        .text(b"deadline, none pending:")
        .flag(valid(c, pending(last + 1, false)))
        .print(rt)?;
    Ok(())
}

// Valid beside a security record of these lengths, whose eighth lock ends at this moment.
fn beside(c: &Config, seed: u64, counts: u64, locks: u64, until: u64) -> bool {
    let mut k = [0u64; 68];
    k[0] = seed;
    k[2] = counts;
    k[3] = locks;
    k[67] = until;
    state::valid::is_valid(c, State::new(), &k, &[0; 64], &[1; 32], &[0; 4353])
}

pub(crate) fn secured(rt: &HostRuntime, c: &Config) -> io::Result<()> {
    let last = Instant::MAX_MOMENT;
    pair(rt, b"seed:", beside(c, 32, 0, 0, 0), beside(c, 33, 0, 0, 0))?;
    pair(rt, b"counts:", beside(c, 0, 8, 0, 0), beside(c, 0, 9, 0, 0))?;
    pair(rt, b"locks:", beside(c, 0, 0, 8, 0), beside(c, 0, 0, 9, 0))?;
    pair(
        rt,
        b"lock:",
        beside(c, 0, 0, 8, last),
        beside(c, 0, 0, 8, last + 1),
    )?;
    Ok(())
}

// Valid with so many subscriptions, all of this interval and next due at this moment.
fn among(c: &Config, count: u8, interval: u64, next: u64) -> bool {
    let mut s = State::new();
    s.subscriptions = count;
    let mut subs = [0u64; 64];
    subs[2] = interval;
    subs[3] = next;
    state::valid::is_valid(c, s, &[0; 68], &subs, &[1; 32], &[0; 4353])
}

pub(crate) fn subscribed(rt: &HostRuntime, c: &Config) -> io::Result<()> {
    let last = Instant::MAX_MOMENT;
    pair(
        rt,
        b"subscriptions:",
        among(c, 16, 0, 0),
        among(c, 17, 0, 0),
    )?;
    pair(
        rt,
        b"interval:",
        among(c, 1, 0xFFFF_FFFF, 0),
        among(c, 1, 0x1_0000_0000, 0),
    )?;
    pair(rt, b"next:", among(c, 1, 0, last), among(c, 1, 0, last + 1))?;
    Ok(())
}

// Valid with so many frames waiting, all of this length.
fn waiting(c: &Config, count: u8, len: u32) -> bool {
    let mut s = State::new();
    s.frames = count;
    state::valid::is_valid(c, s, &[0; 68], &[0; 64], &[len; 32], &[0; 4353])
}

pub(crate) fn framed(rt: &HostRuntime, c: &Config) -> io::Result<()> {
    pair(rt, b"frames:", waiting(c, 16, 1), waiting(c, 17, 1))?;
    pair(
        rt,
        b"longest frame:",
        waiting(c, 1, 256),
        waiting(c, 1, 257),
    )?;
    pair(rt, b"shortest frame:", waiting(c, 1, 1), waiting(c, 1, 0))?;
    Ok(())
}

pub(crate) fn configured(rt: &HostRuntime, eight: &Config, nine: &Config) -> io::Result<()> {
    pair(
        rt,
        b"sessions:",
        valid(eight, State::new()),
        valid(nine, State::new()),
    )?;
    Ok(())
}
