// The clock, the codes, the rules of frames and the value table, each at its edges. What it must write was worked out by hand from the rules in
// docs/PROMISES.md. Codes and bytes are in hex, other numbers decimal.
#![tactic(auto)]

use lines::Line;
use std::io;
use uds::clock::{Duration, Instant};
use uds::nrc::{Nrc, Rate};
use uds::{frame, values};

// Sums at and past the last moment, differences after a clock that went forth and back, and the three comparisons.
fn clock(rt: &HostRuntime) -> io::Result<()> {
    let last = Instant(Instant::LAST);
    Line::new()
        .text(b"clock:")
        .number(Instant(5).plus(Duration(3)).0)
        .number(last.plus(Duration(1)).0)
        .number(Instant(8).since(Instant(5)).0)
        .number(Instant(5).since(Instant(8)).0)
        .flag(Instant(5).is_before(Instant(5)))
        .flag(Instant(5).is_before(Instant(6)))
        .flag(Duration(5).exceeds(Duration(5)))
        .flag(Duration(6).exceeds(Duration(5)))
        .number(Duration(5).larger(Duration(6)).0)
        .print(rt)?;
    Ok(())
}

// Every code that is withheld after a functional request.
fn codes(rt: &HostRuntime) -> io::Result<()> {
    let mut line = Line::new().text(b"withheld:");
    for code in 1..=255 {
        if Nrc(code).withheld() {
            line = line.lower_hex(&[code]);
        }
    }
    line.print(rt)?;
    Ok(())
}

// The three rates.
fn rates(rt: &HostRuntime) -> io::Result<()> {
    Line::new()
        .text(b"rates:")
        .number(Rate(1).interval().0)
        .number(Rate(2).interval().0)
        .number(Rate(3).interval().0)
        .print(rt)?;
    Ok(())
}

// The first byte and what follows, of a frame and of none; the sub-function with and without its bit 7.
fn first_bytes(rt: &HostRuntime) -> io::Result<()> {
    Line::new()
        .text(b"service:")
        .lower_hex(&[frame::sid(b"\x22\xF1\x90")])
        .lower_hex(&[frame::sid(b"")])
        .number(frame::payload(b"\x22\xF1\x90").len() as u64)
        .number(frame::payload(b"").len() as u64)
        .print(rt)?;
    Line::new()
        .text(b"sub-function:")
        .lower_hex(&[frame::sub_function(b"\x83")])
        .lower_hex(&[frame::sub_function(b"\x7F")])
        .lower_hex(&[frame::sub_function(b"")])
        .flag(frame::suppressed(b"\x80"))
        .flag(frame::suppressed(b"\x7F"))
        .flag(frame::suppressed(b""))
        .print(rt)?;
    Ok(())
}

// Nibbles, the periodic page, bit 6.
fn bits(rt: &HostRuntime) -> io::Result<()> {
    Line::new()
        .text(b"bits:")
        .number(u64::from(frame::high_nibble(0xA5)))
        .number(u64::from(frame::low_nibble(0xA5)))
        .number(u64::from(frame::periodic_did(0xFF)))
        .lower_hex(&[frame::response(0x22)])
        .lower_hex(&[frame::response(0x62)])
        .print(rt)?;
    Ok(())
}

// Numbers of two bytes.
fn two_bytes(rt: &HostRuntime) -> io::Result<()> {
    let both = frame::two_bytes(0x1_2345);
    Line::new()
        .text(b"two bytes:")
        .number(u64::from(frame::identifier(0xF1, 0x90)))
        .number(u64::from(frame::word(b"\x00\xF1\x90", 1)))
        .number(u64::from(frame::word(b"\x00\xF1\x90", 2)))
        .lower_hex(&[both[0]])
        .lower_hex(&[both[1]])
        .lower_hex(&[frame::byte(b"\x07", 0)])
        .lower_hex(&[frame::byte(b"\x07", 1)])
        .print(rt)?;
    Ok(())
}

// What the table says of an identifier, at the limit of 256: where the bytes stand and how many they are, or the error byte.
fn read(
    rt: &HostRuntime,
    what: &[u8],
    words: &[u32],
    pool: &[u8],
    identifier: u16,
) -> io::Result<()> {
    let line = Line::new().text(what);
    match values::value(words, pool, identifier, 256) {
        Ok(place) => {
            line.number(place.start as u64)
                .number(place.len as u64)
                .print(rt)?;
        }
        Err(code) => {
            line.text(b" error").lower_hex(&[code]).print(rt)?;
        }
    }
    Ok(())
}

// Eight rows over four bytes, and three words that make no row: in the pool, its identifier again, with an error byte, exactly to the end, a byte past
// it, empty at the end, empty past it, and an error outside the pool.
fn table(rt: &HostRuntime) -> io::Result<()> {
    let words = [
        0xF190u32, 0, 0, 2, 0xF190, 0, 2, 2, 0xF201, 0x110, 0, 4, 0xF202, 0, 2, 2, 0xF203, 0, 3, 2,
        0xF204, 0, 4, 0, 0xF205, 0, 5, 0, 0xF206, 0x10, 0, 5, 0xF207, 0, 0,
    ];
    let pool = b"\x01\x02\x03\x04";
    read(rt, b"in the pool, first row:", &words, pool, 0xF190)?;
    read(rt, b"error byte:", &words, pool, 0xF201)?;
    read(rt, b"to the end:", &words, pool, 0xF202)?;
    read(rt, b"a byte past:", &words, pool, 0xF203)?;
    read(rt, b"empty at the end:", &words, pool, 0xF204)?;
    read(rt, b"empty past it:", &words, pool, 0xF205)?;
    read(rt, b"an error outside:", &words, pool, 0xF206)?;
    read(rt, b"cut row:", &words, pool, 0xF207)?;
    read(rt, b"missing:", &words, pool, 0xF208)?;
    Ok(())
}

// A value of 256 bytes and one of 257.
fn long(rt: &HostRuntime) -> io::Result<()> {
    let words = [0xF190u32, 0, 0, 256, 0xF201, 0, 0, 257];
    let pool = [0u8; 300];
    read(rt, b"256 bytes:", &words, &pool, 0xF190)?;
    read(rt, b"257 bytes:", &words, &pool, 0xF201)?;
    Ok(())
}

fn main(rt: HostRuntime) -> io::Result<()> {
    clock(&rt)?;
    codes(&rt)?;
    rates(&rt)?;
    first_bytes(&rt)?;
    bits(&rt)?;
    two_bytes(&rt)?;
    table(&rt)?;
    long(&rt)?;
    Ok(())
}
