// A fresh server, and drains by both doors. Of a fresh server a line has the result, both addresses, session, level, subscriptions and waiting frames; of a
// drain the result, how many frames were written, how many wait then, and the buffer, which held EE. What it must write was worked out by hand from the rules
// in docs/PROMISES.md, before the program ran.
#![tactic(auto)]

mod requests;
mod show;

use config::{Config, build};
use queue::reply::Outbox;
use queue::{Heads, Room};
use server::fresh::Server;
use state::{SessionState, State};
use std::io;
use uds::clock::Instant;
use uds::rows::SessionConfig;

fn sessions(n: u8) -> Config {
    let mut c = build::new(16, 2015);
    for _ in 0..n {
        let next = build::with_session(c, SessionConfig::default_session());
        c = next;
    }
    c
}

// A negative frame for each of two testers. Neither is refused, since fewer than sixteen wait.
fn waiting(heads: &mut Heads, room: &mut Room) -> State {
    let mut outbox = Outbox {
        count: 0,
        heads,
        room,
    };
    outbox.negative(3712, 0x22, 0x31).ok();
    outbox.negative(3713, 0x10, 0x12).ok();
    State {
        frames: outbox.count,
        ..State::new()
    }
}

// The same state, with a last request that no state may hold.
fn not_valid(s: State) -> State {
    State {
        session: SessionState {
            last_rx: Instant(Instant::MAX_MOMENT + 1),
            ..s.session
        },
        ..s
    }
}

// A buffer that is a byte short, one that is exactly full, what is left then, and a longer buffer; and 10, which comes before 5.
fn lent(rt: &HostRuntime, c: &Config, other: &Config) -> io::Result<()> {
    let mut heads = [0u32; 32];
    let mut room = [0u8; 4353];
    let s = waiting(&mut heads, &mut room);
    let same = show::lent(rt, b"a byte short:", c, s, &heads, &room, &mut [0xEE; 21])?;
    let empty = show::lent(
        rt,
        b"exactly full:",
        c,
        same,
        &heads,
        &room,
        &mut [0xEE; 22],
    )?;
    show::lent(rt, b"again:", c, empty, &heads, &room, &mut [0xEE; 3])?;
    show::lent(rt, b"longer:", c, s, &heads, &room, &mut [0xEE; 24])?;
    let bad = not_valid(s);
    show::lent(rt, b"not valid:", c, bad, &heads, &room, &mut [0xEE; 22])?;
    show::lent(
        rt,
        b"not valid, a byte short:",
        c,
        bad,
        &heads,
        &room,
        &mut [0xEE; 21],
    )?;
    show::lent(
        rt,
        b"nine sessions:",
        other,
        s,
        &heads,
        &room,
        &mut [0xEE; 22],
    )?;
    Ok(())
}

// The same by the other door.
fn by_value(rt: &HostRuntime, v: Server) -> io::Result<()> {
    let mut heads = v.heads;
    let mut room = v.room;
    let s = waiting(&mut heads, &mut room);
    let mut full = v;
    full.heads = heads;
    full.room = room;
    full.state = s;
    let same = show::by_value(rt, b"by value, a byte short:", full, &mut [0xEE; 21])?;
    let mut empty = show::by_value(rt, b"by value, exactly full:", same, &mut [0xEE; 22])?;
    show::by_value(rt, b"by value, again:", empty, &mut [0xEE; 3])?;
    let bad = not_valid(empty.state);
    empty.state = bad;
    show::by_value(rt, b"by value, not valid:", empty, &mut [0xEE; 3])?;
    Ok(())
}

fn main(rt: HostRuntime) -> io::Result<()> {
    let eight = sessions(8);
    let nine = sessions(9);
    let v = show::fresh(&rt, b"eight sessions:", eight)?;
    show::fresh(&rt, b"nine sessions:", nine)?;
    lent(&rt, &eight, &nine)?;
    by_value(&rt, v)?;
    requests::run(&rt)?;
    Ok(())
}
