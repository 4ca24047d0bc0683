// Moments and intervals at their edges.
use super::show::{entry, register};
use lines::Line;
use periodic::Subscriptions;
use std::io;
use uds::clock::{Duration, Instant};

fn text(rt: &HostRuntime, t: &[u8]) -> io::Result<()> {
    Line::new().text(t).print(rt)?;
    Ok(())
}

// Due at equality and one before; of the second entry, and of one that does not stand; and after the entry was advanced.
pub(crate) fn due(rt: &HostRuntime) -> io::Result<()> {
    let mut subs = [0u64; 64];
    periodic::register(&mut subs, 0, 61953, 3712, Duration(2000), Instant(100));
    periodic::register(&mut subs, 1, 61954, 3713, Duration(500), Instant(100));
    Line::new()
        .text(b"due at 2099, 2100, 2101:")
        .flag(periodic::due(&subs, 2, 0, Instant(2099)))
        .flag(periodic::due(&subs, 2, 0, Instant(2100)))
        .flag(periodic::due(&subs, 2, 0, Instant(2101)))
        .print(rt)?;
    Line::new()
        .text(b"the next, and past it:")
        .flag(periodic::due(&subs, 2, 1, Instant(600)))
        .flag(periodic::due(&subs, 2, 2, Instant(600)))
        .print(rt)?;
    periodic::advance(&mut subs, 2, 0, Instant(2500));
    text(rt, b"advanced at 2500")?;
    entry(rt, &subs, 0)?;
    entry(rt, &subs, 1)?;
    Line::new()
        .text(b"due at 4499, 4500:")
        .flag(periodic::due(&subs, 2, 0, Instant(4499)))
        .flag(periodic::due(&subs, 2, 0, Instant(4500)))
        .print(rt)?;
    periodic::advance(&mut subs, 2, 2, Instant(9000));
    text(rt, b"past the last")?;
    entry(rt, &subs, 2)?;
    Ok(())
}

// A moment past the last one is the last.
pub(crate) fn last_moment(rt: &HostRuntime) -> io::Result<()> {
    let mut subs = [0u64; 64];
    register(
        rt,
        b"at the last moment:",
        &mut subs,
        0,
        61953,
        3712,
        50,
        Instant::LAST,
    )?;
    entry(rt, &subs, 0)?;
    register(
        rt,
        b"a moment less:",
        &mut subs,
        0,
        61953,
        3712,
        50,
        Instant::LAST - 51,
    )?;
    entry(rt, &subs, 0)?;
    Line::new()
        .text(b"due before, then:")
        .flag(periodic::due(&subs, 1, 0, Instant(Instant::LAST - 2)))
        .flag(periodic::due(&subs, 1, 0, Instant(Instant::LAST - 1)))
        .print(rt)?;
    periodic::advance(&mut subs, 1, 0, Instant(Instant::LAST));
    Line::new()
        .text(b"advanced:")
        .flag(periodic::subscriptions_valid(&subs, 1))
        .print(rt)?;
    entry(rt, &subs, 0)?;
    Ok(())
}

// A table of two entries whose words are all `word`, but for the second one's interval.
fn table(word: u64, interval: u64) -> Subscriptions {
    let mut subs = [word; 64];
    subs[6] = interval;
    subs
}

// Whether a table of one entry is valid.
fn one_valid(interval: u64, next: u64) -> bool {
    let mut subs = [0u64; 64];
    subs[2] = interval;
    subs[3] = next;
    periodic::subscriptions_valid(&subs, 1)
}

// Intervals and moments at the greatest and one above; and what does not stand is not looked at.
pub(crate) fn valid(rt: &HostRuntime) -> io::Result<()> {
    Line::new()
        .text(b"interval 2^32 - 1, 2^32:")
        .flag(one_valid(0xFFFF_FFFF, 0))
        .flag(one_valid(0x1_0000_0000, 0))
        .print(rt)?;
    Line::new()
        .text(b"moment 2^48 + 2^32, one more:")
        .flag(one_valid(0, 0x1_0001_0000_0000))
        .flag(one_valid(0, 0x1_0001_0000_0001))
        .print(rt)?;
    let subs = table(1, 0x1_0000_0000);
    let worst = table(Instant::LAST, Instant::LAST);
    Line::new()
        .text(b"second of two, first alone, none:")
        .flag(periodic::subscriptions_valid(&subs, 2))
        .flag(periodic::subscriptions_valid(&subs, 1))
        .flag(periodic::subscriptions_valid(&worst, 0))
        .print(rt)?;
    Ok(())
}

// An identifier is the low 16 bits of its word and a client the low 32; past the words all is 0.
pub(crate) fn wide(rt: &HostRuntime) -> io::Result<()> {
    let mut subs = [0u64; 64];
    subs[..4].copy_from_slice(&[0x1_F201, 0x1_0000_0E80, 0x1_0000_0000, Instant::LAST]);
    text(rt, b"wide words")?;
    entry(rt, &subs, 0)?;
    entry(rt, &subs, 16)?;
    Ok(())
}
