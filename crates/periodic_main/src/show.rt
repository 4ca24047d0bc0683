// What is asked of the table, and the answer.
use lines::Line;
use periodic::Subscriptions;
use std::io;
use uds::clock::{Duration, Instant};

// The number of an entry, and what it holds.
pub(crate) fn entry(rt: &HostRuntime, subs: &Subscriptions, i: usize) -> io::Result<()> {
    let e = periodic::entry_at(subs, i);
    Line::new()
        .number(i as u64)
        .text(b":")
        .number(u64::from(e.identifier))
        .number(u64::from(e.client))
        .number(e.interval.0)
        .number(e.next.0)
        .print(rt)?;
    Ok(())
}

// How many entries stand now, or `full`.
pub(crate) fn register(
    rt: &HostRuntime,
    what: &[u8],
    subs: &mut Subscriptions,
    count: u8,
    identifier: u16,
    client: u32,
    interval: u64,
    t: u64,
) -> io::Result<u8> {
    let line = Line::new().text(what);
    let span = Duration(interval);
    let Some(n) = periodic::register(subs, count, identifier, client, span, Instant(t)) else {
        line.text(b" full").print(rt)?;
        return Ok(count);
    };
    line.number(u64::from(n)).print(rt)?;
    Ok(n)
}

// How many entries stand now.
pub(crate) fn cancel(
    rt: &HostRuntime,
    what: &[u8],
    subs: &mut Subscriptions,
    count: u8,
    identifier: u16,
    client: u32,
) -> io::Result<u8> {
    let left = periodic::cancel(subs, count, identifier, client);
    Line::new().text(what).number(u64::from(left)).print(rt)?;
    Ok(left)
}

// The number of the entry, or `-`.
pub(crate) fn find(
    rt: &HostRuntime,
    what: &[u8],
    subs: &Subscriptions,
    count: u8,
    identifier: u16,
    client: u32,
) -> io::Result<()> {
    let line = Line::new().text(what);
    let Some(i) = periodic::find(subs, count, identifier, client) else {
        line.text(b" -").print(rt)?;
        return Ok(());
    };
    line.number(i as u64).print(rt)?;
    Ok(())
}
