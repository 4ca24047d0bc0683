// Records handed in whose numbers are at their edge or past it.
use lines::Line;
use std::io;
use uds::clock::Instant;

// A list of nine is no list of levels: nothing is found under it, and nothing entered.
fn nine(rt: &HostRuntime) -> io::Result<()> {
    let mut k = [1u64; 68];
    k[2] = 9;
    Line::new()
        .text(b"nine counts:")
        .number(security::failed_count(&k, 1))
        .flag(security::increment(&mut k, 1))
        .number(k[2])
        .print(rt)?;
    let mut locks = [1u64; 68];
    locks[3] = 9;
    Line::new()
        .text(b"nine locks:")
        .flag(security::is_locked(&locks, 1, Instant(0)))
        .flag(security::lock(&mut locks, 1, Instant(900)))
        .number(locks[3])
        .print(rt)?;
    Ok(())
}

// Valid with these lengths, and with this moment as the eighth lock's end.
fn valid(seed: u64, counts: u64, locks: u64, until: u64) -> bool {
    let mut k = [0u64; 68];
    k[0] = seed;
    k[2] = counts;
    k[3] = locks;
    k[67] = until;
    security::is_valid(&k)
}

pub(crate) fn run(rt: &HostRuntime) -> io::Result<()> {
    nine(rt)?;
    Line::new()
        .text(b"seed of 32, 33:")
        .flag(valid(32, 0, 0, 0))
        .flag(valid(33, 0, 0, 0))
        .print(rt)?;
    Line::new()
        .text(b"counts 8, 9:")
        .flag(valid(0, 8, 0, 0))
        .flag(valid(0, 9, 0, 0))
        .print(rt)?;
    Line::new()
        .text(b"locks 8, 9:")
        .flag(valid(0, 0, 8, 0))
        .flag(valid(0, 0, 9, 0))
        .print(rt)?;
    Line::new()
        .text(b"until 2^48 + 2^32, one more:")
        .flag(valid(0, 0, 8, Instant::MAX_MOMENT))
        .flag(valid(0, 0, 8, Instant::MAX_MOMENT + 1))
        .print(rt)?;
    Line::new()
        .text(b"one more, not counted:")
        .flag(valid(0, 0, 7, Instant::MAX_MOMENT + 1))
        .print(rt)?;
    Ok(())
}
