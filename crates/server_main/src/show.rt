// What is asked of a server, and the answer.
use config::Config;
use lines::Line;
use queue::{Heads, Room};
use server::fresh::Server;
use state::State;
use std::io;

// The result, the two addresses, the session, the level, and how many subscriptions and frames there are.
pub(crate) fn fresh(rt: &HostRuntime, what: &[u8], c: Config) -> io::Result<Server> {
    let f = Server::fresh(c);
    let v = f.server;
    let config = v.config;
    let s = v.state;
    let session = s.session;
    Line::new()
        .text(what)
        .number(u64::from(f.result))
        .number(u64::from(config::physical(&config)))
        .number(u64::from(config::functional(&config)))
        .number(u64::from(session.session_type))
        .number(u64::from(session.level))
        .number(u64::from(s.subscriptions))
        .number(u64::from(s.frames))
        .print(rt)?;
    Ok(v)
}

// The result, how many frames were written, how many wait then, and the buffer.
fn drained(
    rt: &HostRuntime,
    what: &[u8],
    res: u8,
    frames: u8,
    left: u8,
    out: &[u8],
) -> io::Result<()> {
    Line::new()
        .text(what)
        .number(u64::from(res))
        .number(u64::from(frames))
        .number(u64::from(left))
        .lower_hex(out)
        .print(rt)?;
    Ok(())
}

pub(crate) fn lent<'a>(
    rt: &HostRuntime,
    what: &[u8],
    c: &'a Config,
    s: State,
    heads: &'a Heads,
    room: &'a Room,
    out: &mut [u8],
) -> io::Result<State> {
    let d = calls::drain::drain(c, s, &[0; 68], &[0; 64], heads, room, out);
    let left = d.state;
    drained(rt, what, d.result, d.frames, left.frames, out)?;
    Ok(left)
}

pub(crate) fn by_value(
    rt: &HostRuntime,
    what: &[u8],
    v: Server,
    out: &mut [u8],
) -> io::Result<Server> {
    let d = v.drain(out);
    let left = d.server;
    let s = left.state;
    drained(rt, what, d.result, d.frames, s.frames, out)?;
    Ok(left)
}
