// 27, in session 1 with level 2 held.
use super::{at, handed, requested, wanted, words};
use access::service27::service27;
use config::Config;
use queue::Room;
use security::Security;
use service::Request;
use std::io;

// A key of level 5.
const KEY: [u8; 5] = [6, 1, 2, 3, 4];

// What is answered, and what is left of the words.
fn access(rt: &HostRuntime, what: &[u8], request: &Request, k: &mut Security) -> io::Result<()> {
    let mut room: Room = [0; 4353];
    let w = service27(request, k, &mut room);
    wanted(rt, what, w, &room)?;
    words(rt, k)?;
    Ok(())
}

// Short, access type 0, a level that has no row; the suppress bit is ignored.
fn types(rt: &HostRuntime, c: &Config) -> io::Result<()> {
    let mut k: Security = [0; 68];
    access(rt, b"27:", &requested(c, b""), &mut k)?;
    access(rt, b"27 00:", &requested(c, b"\x00"), &mut k)?;
    access(rt, b"27 80:", &requested(c, b"\x80"), &mut k)?;
    access(rt, b"27 07:", &requested(c, b"\x07"), &mut k)?;
    access(rt, b"27 85:", &handed(c, b"\x85", 0, &[7; 4]), &mut k)?;
    Ok(())
}

// Seeds of 31 bytes, an error, of 30, and of 32.
fn seeds(rt: &HostRuntime, c: &Config) -> io::Result<()> {
    let mut k: Security = [0; 68];
    access(
        rt,
        b"27 01, 31 bytes:",
        &handed(c, b"\x01", 0, &[0xAB; 31]),
        &mut k,
    )?;
    access(
        rt,
        b"27 01, error 78:",
        &handed(c, b"\x01", 0x78, b""),
        &mut k,
    )?;
    access(
        rt,
        b"27 01, 30 bytes:",
        &handed(c, b"\x01", 0, &[0xAB; 30]),
        &mut k,
    )?;
    access(
        rt,
        b"27 01, 31 bytes:",
        &handed(c, b"\x01", 0, &[0xCD; 31]),
        &mut k,
    )?;
    access(
        rt,
        b"27 03, 32 bytes:",
        &handed(c, b"\x03", 0, &[0xAB; 32]),
        &mut k,
    )?;
    Ok(())
}

// A seed of level 5 that awaits its key, and so many refused keys of a level.
fn waiting(level: u64, count: u64) -> Security {
    let mut k: Security = [0; 68];
    k[0] = 4;
    k[1] = 5;
    k[2] = 1;
    k[36] = level;
    k[37] = count;
    k
}

// Keys a byte short and a byte long, of a level that awaits none, and an accepted one.
fn keys(rt: &HostRuntime, c: &Config) -> io::Result<()> {
    let mut k = waiting(5, 2);
    access(
        rt,
        b"27 06, 3 bytes:",
        &requested(c, b"\x06\x01\x02\x03"),
        &mut k,
    )?;
    access(
        rt,
        b"27 06, 5 bytes:",
        &requested(c, b"\x06\x01\x02\x03\x04\x05"),
        &mut k,
    )?;
    access(
        rt,
        b"27 02:",
        &requested(c, b"\x02\x01\x02\x03\x04"),
        &mut k,
    )?;
    access(rt, b"27 06, accepted:", &requested(c, &KEY), &mut k)?;
    access(rt, b"27 06, again:", &requested(c, &KEY), &mut k)?;
    Ok(())
}

fn refused(rt: &HostRuntime, what: &[u8], c: &Config, count: u64, t: u64) -> io::Result<()> {
    let mut k = waiting(5, count);
    access(rt, what, &at(t, handed(c, &KEY, 0x10, b"")), &mut k)?;
    Ok(())
}

// Refused keys below the limit of 255, at it, and above; then locked until 11000, and no longer at 11000.
fn counts(rt: &HostRuntime, c: &Config) -> io::Result<()> {
    refused(rt, b"refused after 253:", c, 253, 1000)?;
    refused(rt, b"refused after 254:", c, 254, 1000)?;
    refused(rt, b"refused after 255:", c, 255, 1000)?;
    let mut k = waiting(5, 254);
    let seed = handed(c, b"\x05", 0, &[7; 4]);
    access(rt, b"27 06, refused:", &handed(c, &KEY, 0x10, b""), &mut k)?;
    access(rt, b"27 05 at 10999:", &at(10_999, seed), &mut k)?;
    access(
        rt,
        b"27 06 at 10999:",
        &at(10_999, requested(c, &KEY)),
        &mut k,
    )?;
    access(rt, b"27 05 at 11000:", &at(11_000, seed), &mut k)?;
    Ok(())
}

// Lists that are full, words that are none, and the last time that a call takes.
fn edges(rt: &HostRuntime, c: &Config) -> io::Result<()> {
    let mut k = waiting(1, 1);
    k[2] = 8;
    access(
        rt,
        b"no room to count:",
        &handed(c, &KEY, 0x10, b""),
        &mut k,
    )?;
    let mut l = waiting(5, 254);
    l[3] = 8;
    access(rt, b"no room to lock:", &handed(c, &KEY, 0x10, b""), &mut l)?;
    let mut m = waiting(5, 1);
    m[2] = 9;
    access(rt, b"nine counts:", &requested(c, &KEY), &mut m)?;
    refused(rt, b"refused at the last time:", c, 254, 0x1_0000_0000_0000)?;
    refused(rt, b"a time too late:", c, 254, 0x1_0000_0000_0001)?;
    Ok(())
}

pub(crate) fn run(rt: &HostRuntime, c: &Config) -> io::Result<()> {
    types(rt, c)?;
    seeds(rt, c)?;
    keys(rt, c)?;
    counts(rt, c)?;
    edges(rt, c)?;
    Ok(())
}
