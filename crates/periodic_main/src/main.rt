// The subscription table at its edges. A table entry is a line of its number, identifier, client, interval and the moment when it is next due; any other
// line says what is asked, and the answer: how many entries stand, `full`, the number of the entry found or `-`, 1 for yes and 0 for no. What it must
// write was worked out by hand from the rules in docs/PROMISES.md, before the program ran.
#![tactic(auto)]

mod edges;
mod show;

use lines::Line;
use periodic::{PeriodicState, Subscriptions};
use show::{cancel, entry, find, register};
use std::io;
use uds::clock::{Duration, Instant};

// Two clients and two identifiers at 100; the second renewed at 300; the first cancelled, so that the others move up in their order.
fn several(rt: &HostRuntime) -> io::Result<()> {
    let mut subs = [0u64; 64];
    let fresh = PeriodicState::new().count;
    Line::new()
        .text(b"fresh:")
        .number(u64::from(fresh))
        .print(rt)?;
    let one = register(rt, b"registered:", &mut subs, fresh, 61953, 3712, 2000, 100)?;
    let two = register(rt, b"registered:", &mut subs, one, 61953, 3713, 500, 100)?;
    let three = register(rt, b"registered:", &mut subs, two, 61954, 3712, 50, 100)?;
    entry(rt, &subs, 0)?;
    entry(rt, &subs, 1)?;
    entry(rt, &subs, 2)?;
    register(rt, b"renewed:", &mut subs, three, 61953, 3713, 2000, 300)?;
    entry(rt, &subs, 1)?;
    find(rt, b"found:", &subs, three, 61953, 3713)?;
    find(rt, b"another client:", &subs, three, 61953, 3714)?;
    find(rt, b"not standing:", &subs, 2, 61954, 3712)?;
    let left = cancel(rt, b"cancelled:", &mut subs, three, 61953, 3712)?;
    entry(rt, &subs, 0)?;
    entry(rt, &subs, 1)?;
    cancel(rt, b"not there:", &mut subs, left, 61955, 3712)?;
    Ok(())
}

// A table handed in that has a subscription twice: the first is renewed, and both are cancelled.
fn twice(rt: &HostRuntime) -> io::Result<()> {
    let mut subs = [0u64; 64];
    subs[..4].copy_from_slice(&[61953, 3712, 50, 100]);
    subs[4..8].copy_from_slice(&[61954, 3713, 60, 200]);
    subs[8..12].copy_from_slice(&[61953, 3712, 70, 300]);
    register(rt, b"twice, renewed:", &mut subs, 3, 61953, 3712, 500, 1000)?;
    entry(rt, &subs, 0)?;
    entry(rt, &subs, 1)?;
    entry(rt, &subs, 2)?;
    cancel(rt, b"twice, cancelled:", &mut subs, 3, 61953, 3712)?;
    entry(rt, &subs, 0)?;
    Ok(())
}

// Fifteen subscriptions of one client, entry `i` to identifier 61952 plus i and with interval i.
fn fifteen(subs: &mut Subscriptions) -> u8 {
    for i in 0..15u8 {
        periodic::register(
            subs,
            i,
            61952 + u16::from(i),
            3712,
            Duration(u64::from(i)),
            Instant(1000),
        );
    }
    15
}

// The sixteenth has room and a seventeenth has not; what stands is renewed all the same; and one from the middle cancelled.
fn full(rt: &HostRuntime) -> io::Result<()> {
    let mut subs = [0u64; 64];
    let count = fifteen(&mut subs);
    let most = register(rt, b"sixteenth:", &mut subs, count, 61967, 3712, 15, 1000)?;
    register(rt, b"seventeenth:", &mut subs, most, 61968, 3712, 16, 1000)?;
    register(rt, b"again:", &mut subs, most, 61952, 3712, 7, 2000)?;
    entry(rt, &subs, 0)?;
    entry(rt, &subs, 15)?;
    cancel(rt, b"cancelled:", &mut subs, most, 61959, 3712)?;
    entry(rt, &subs, 6)?;
    entry(rt, &subs, 7)?;
    entry(rt, &subs, 14)?;
    Ok(())
}

// A count that no table has: all is refused, and the seventeenth entry is one of zeros.
fn past(rt: &HostRuntime) -> io::Result<()> {
    let mut subs = [0u64; 64];
    let count = fifteen(&mut subs);
    periodic::register(&mut subs, count, 61967, 3712, Duration(15), Instant(1000));
    register(rt, b"17, registered:", &mut subs, 17, 61952, 3712, 7, 2000)?;
    cancel(rt, b"17, cancelled:", &mut subs, 17, 61952, 3712)?;
    periodic::advance(&mut subs, 17, 0, Instant(2000));
    entry(rt, &subs, 0)?;
    Line::new()
        .text(b"17, due:")
        .flag(periodic::due(&subs, 17, 0, Instant(1000)))
        .flag(periodic::due(&subs, 17, 16, Instant(0)))
        .flag(periodic::due(&subs, 17, 17, Instant(0)))
        .print(rt)?;
    find(rt, b"17, found:", &subs, 17, 0, 0)?;
    Line::new()
        .text(b"16, 17, valid:")
        .flag(periodic::subscriptions_valid(&subs, 16))
        .flag(periodic::subscriptions_valid(&subs, 17))
        .print(rt)?;
    Ok(())
}

fn main(rt: HostRuntime) -> io::Result<()> {
    several(&rt)?;
    twice(&rt)?;
    full(&rt)?;
    edges::due(&rt)?;
    past(&rt)?;
    edges::last_moment(&rt)?;
    edges::valid(&rt)?;
    edges::wide(&rt)?;
    Ok(())
}
