// 2A after a functional request, in session 1 with no level held: how many subscriptions stand then, and what is said.
use super::show;
use config::Config;
use lines::Line;
use periodic::Subscriptions;
use service::Request;
use std::io;
use uds::clock::Instant;

fn ask(
    rt: &HostRuntime,
    what: &[u8],
    c: &Config,
    subs: &mut Subscriptions,
    count: u8,
    src: u32,
    t: u64,
    payload: &[u8],
) -> io::Result<u8> {
    let mut room = [0u8; 4353];
    let request = Request {
        subscriptions: count,
        src,
        t: Instant(t),
        ..Request::of(c, payload)
    };
    let effect = transmission::service2A::service2A(&request, subs, &mut room).effect;
    let line = Line::new()
        .text(what)
        .number(u64::from(effect.subscriptions));
    show::reply(rt, line, effect.reply, 0x2A, true, &mut room)?;
    Ok(effect.subscriptions)
}

// Registered, renewed, refused and cancelled, by two clients.
pub(crate) fn several(rt: &HostRuntime, c: &Config) -> io::Result<()> {
    let mut subs = [0u64; 64];
    let one = ask(rt, b"slow:", c, &mut subs, 0, 1, 100, b"\x01\x01")?;
    show::entry(rt, &subs, 0)?;
    let two = ask(rt, b"minimum 3000:", c, &mut subs, one, 1, 200, b"\x03\x02")?;
    show::entry(rt, &subs, 1)?;
    ask(rt, b"renewed:", c, &mut subs, two, 1, 300, b"\x02\x01")?;
    show::entry(rt, &subs, 0)?;
    let three = ask(
        rt,
        b"second unreadable:",
        c,
        &mut subs,
        two,
        2,
        400,
        b"\x01\x01\x09",
    )?;
    show::entry(rt, &subs, 2)?;
    ask(rt, b"empty:", c, &mut subs, three, 2, 400, b"")?;
    ask(rt, b"mode 0:", c, &mut subs, three, 2, 400, b"\x00\x01")?;
    ask(rt, b"mode 5:", c, &mut subs, three, 2, 400, b"\x05\x01")?;
    ask(rt, b"none asked:", c, &mut subs, three, 2, 400, b"\x01")?;
    let left = ask(
        rt,
        b"cancelled:",
        c,
        &mut subs,
        three,
        1,
        500,
        b"\x04\x01\x02",
    )?;
    show::entry(rt, &subs, 0)?;
    ask(rt, b"not there:", c, &mut subs, left, 1, 500, b"\x04\x01")?;
    Ok(())
}

// Sixteen clients; a seventeenth; what stands is renewed all the same, also where the next finds no room; and a count that no table has.
pub(crate) fn full(rt: &HostRuntime, c: &Config) -> io::Result<()> {
    let mut subs = [0u64; 64];
    let fast = b"\x03\x01";
    let mut count = 0;
    for src in 1..=15 {
        count = ask(rt, b"one more:", c, &mut subs, count, src, 1000, fast)?;
    }
    let all = ask(rt, b"sixteenth:", c, &mut subs, count, 16, 1000, fast)?;
    ask(rt, b"seventeenth:", c, &mut subs, all, 17, 1000, fast)?;
    ask(rt, b"renewed:", c, &mut subs, all, 16, 5000, b"\x01\x01")?;
    show::entry(rt, &subs, 15)?;
    ask(
        rt,
        b"renewed, and one more:",
        c,
        &mut subs,
        all,
        16,
        6000,
        b"\x02\x01\x02",
    )?;
    show::entry(rt, &subs, 15)?;
    ask(
        rt,
        b"seventeen handed in:",
        c,
        &mut subs,
        17,
        16,
        7000,
        b"\x02\x01",
    )?;
    show::entry(rt, &subs, 15)?;
    Ok(())
}

// At 2^48, and a millisecond later.
pub(crate) fn late(rt: &HostRuntime, c: &Config) -> io::Result<()> {
    let mut subs = [0u64; 64];
    let one = ask(
        rt,
        b"2^48:",
        c,
        &mut subs,
        0,
        1,
        Instant::MAX_TIME,
        b"\x03\x01",
    )?;
    show::entry(rt, &subs, 0)?;
    ask(
        rt,
        b"later:",
        c,
        &mut subs,
        one,
        1,
        Instant::MAX_TIME + 1,
        b"\x01\x01",
    )?;
    show::entry(rt, &subs, 0)?;
    Ok(())
}
