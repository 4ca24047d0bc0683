// The security record at its edges: the lists of refused keys and of locks, the seed that awaits its key, and the record valid or just not. Of a seed a
// line has its level, its length, and all 32 bytes that may hold one, in hex; else numbers are decimal, and 1 is yes and 0 is no. What it must write was
// worked out by hand from the rules in docs/PROMISES.md, before the program ran.
#![tactic(auto)]

mod valid;

use lines::Line;
use security::{Security, SecurityState};
use std::io;
use uds::clock::Instant;

// No seed, no count, no lock.
fn fresh() -> Security {
    SecurityState::new().words
}

// So many keys of a level refused.
fn refused(k: &mut Security, level: u8, times: u16) {
    for _ in 0..times {
        security::increment(k, level);
    }
}

fn count(rt: &HostRuntime, what: &[u8], k: &Security, level: u8) -> io::Result<()> {
    Line::new()
        .text(what)
        .number(security::failed_count(k, level))
        .print(rt)?;
    Ok(())
}

// A count at 254, 255 and one more; none after a key that was accepted; and a level that has no count gets none.
fn counted(rt: &HostRuntime) -> io::Result<()> {
    let mut k = fresh();
    refused(&mut k, 3, 254);
    count(rt, b"refused 254 times:", &k, 3)?;
    refused(&mut k, 3, 1);
    count(rt, b"once more:", &k, 3)?;
    refused(&mut k, 3, 1);
    count(rt, b"and again:", &k, 3)?;
    security::reset(&mut k, 3);
    count(rt, b"accepted:", &k, 3)?;
    security::reset(&mut k, 4);
    Line::new()
        .text(b"no count, accepted:")
        .number(security::failed_count(&k, 4))
        .number(k[2])
        .print(rt)?;
    Ok(())
}

// Levels 1 to n, each refused once and locked until 900.
fn filled(n: u8) -> Security {
    let mut k = fresh();
    for level in 1..=n {
        security::increment(&mut k, level);
        security::lock(&mut k, level, Instant(900));
    }
    k
}

// Whether both lists have room for a level, after so many.
fn entered(rt: &HostRuntime, what: &[u8], before: u8, level: u8) -> io::Result<()> {
    let mut k = filled(before);
    Line::new()
        .text(what)
        .flag(security::increment(&mut k, level))
        .flag(security::lock(&mut k, level, Instant(1)))
        .print(rt)?;
    Ok(())
}

// Locked until 900: at 899, at 900, another level; then locked again until 950.
fn locked(rt: &HostRuntime) -> io::Result<()> {
    let mut k = filled(3);
    Line::new()
        .text(b"locked at 899, 900:")
        .flag(security::is_locked(&k, 3, Instant(899)))
        .flag(security::is_locked(&k, 3, Instant(900)))
        .flag(security::is_locked(&k, 4, Instant(899)))
        .print(rt)?;
    security::lock(&mut k, 3, Instant(950));
    Line::new()
        .text(b"locked again:")
        .flag(security::is_locked(&k, 3, Instant(949)))
        .flag(security::is_locked(&k, 2, Instant(949)))
        .print(rt)?;
    Ok(())
}

// The 32 bytes that may hold a seed.
fn bytes(k: &Security) -> [u8; 32] {
    std::array::from_fn(|i| (k[4 + i] % 256) as u8)
}

fn seed(rt: &HostRuntime, what: &[u8], k: &Security) -> io::Result<()> {
    Line::new()
        .text(what)
        .number(k[1])
        .number(k[0])
        .hex(&bytes(k))
        .print(rt)?;
    Ok(())
}

fn awaited(rt: &HostRuntime, k: &Security, level: u8, other: u8) -> io::Result<()> {
    Line::new()
        .text(b"awaited:")
        .flag(security::awaits(k, level))
        .flag(security::awaits(k, other))
        .print(rt)?;
    Ok(())
}

// A seed of four bytes, kept and cleared; the longest, and a short one after it, which leaves none of its bytes; and one that is too long.
fn seeded(rt: &HostRuntime) -> io::Result<()> {
    let mut k = fresh();
    security::seed(&mut k, 3, b"\x01\x02\x03\x04");
    seed(rt, b"seeded:", &k)?;
    awaited(rt, &k, 3, 4)?;
    security::settle(&mut k, false);
    seed(rt, b"kept:", &k)?;
    security::settle(&mut k, true);
    seed(rt, b"cleared:", &k)?;
    awaited(rt, &k, 3, 0)?;
    security::seed(&mut k, 3, &[0xAB; 32]);
    seed(rt, b"longest:", &k)?;
    security::seed(&mut k, 5, b"\x0A\x0B");
    seed(rt, b"shorter:", &k)?;
    security::seed(&mut k, 3, &[7; 33]);
    seed(rt, b"33 bytes:", &k)?;
    Ok(())
}

fn main(rt: HostRuntime) -> io::Result<()> {
    counted(&rt)?;
    entered(&rt, b"eighth:", 7, 8)?;
    entered(&rt, b"ninth:", 8, 9)?;
    entered(&rt, b"listed:", 8, 8)?;
    locked(&rt)?;
    seeded(&rt)?;
    valid::run(&rt)?;
    Ok(())
}
