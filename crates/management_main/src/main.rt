// 3E, 10, 11, 27 and 28 at their edges. A line has the reply, the act with the places of its arguments, and of what is wanted the session, the level, whether
// the seed is cleared and whether the change waits: 1 is yes and 0 is no. After 27 a second line has the security words: the seed's level and length, how
// many counts there are and the first, how many locks and the first. Replies are in hex, numbers decimal.
// What it must write was worked out by hand from the rules in docs/PROMISES.md, before the program ran.
#![tactic(auto)]

mod keys;
mod sessions;

use config::{Config, build};
use lines::Line;
use queue::Room;
use queue::reply::Reply;
use security::Security;
use service::{Act, Part, Request, Spoken, Wanted};
use std::io;
use uds::clock::{Duration, Instant};
use uds::rows::{SecurityLevelConfig, SessionConfig};

// In session 1 with level 2 held, at 1000; nothing is handed in.
fn requested<'a>(c: &'a Config, payload: &'a [u8]) -> Request<'a> {
    Request {
        level: 2,
        t: Instant(1000),
        ..Request::of(c, payload)
    }
}

// And what is handed in for the act.
fn handed<'a>(c: &'a Config, payload: &'a [u8], err: u8, given: &'a [u8]) -> Request<'a> {
    Request {
        err,
        given,
        ..requested(c, payload)
    }
}

// The same at another time.
fn at<'a>(t: u64, request: Request<'a>) -> Request<'a> {
    Request {
        t: Instant(t),
        ..request
    }
}

// A reply, as it stands in the first place of a room.
fn replied(line: Line, reply: Reply, room: &Room) -> Line {
    match reply {
        Reply::Silent => line.word(b"silent"),
        Reply::Positive(len) => {
            let made = service::first(uds::frame::payload(room), len);
            line.word(b"says").hex(made)
        }
        Reply::Negative(code) => line.word(b"refused").hex(&[code]),
        Reply::Always(code) => line.word(b"always").hex(&[code]),
        Reply::Pends => line.word(b"pends"),
    }
}

fn placed(line: Line, p: Part) -> Line {
    line.number(p.start as u64).number(p.len as u64)
}

// Its number and, if there is one, two places.
fn asked(line: Line, act: Act) -> Line {
    let next = line.word(b"act").number(u64::from(act.number));
    if act.number == 0 {
        return next;
    }
    let parts = next.number(u64::from(act.parts));
    placed(placed(parts, act.a), act.b)
}

fn spoken(rt: &HostRuntime, what: &[u8], s: Spoken, room: &Room) -> io::Result<()> {
    let line = replied(Line::new().text(what), s.reply, room);
    asked(line, s.act).print(rt)?;
    Ok(())
}

fn wanted(rt: &HostRuntime, what: &[u8], w: Wanted, room: &Room) -> io::Result<()> {
    let e = w.effect;
    let line = replied(Line::new().text(what), e.reply, room);
    asked(line, w.act)
        .word(b"wants")
        .number(u64::from(e.session))
        .number(u64::from(e.level))
        .flag(e.clears_seed)
        .flag(e.waits)
        .print(rt)?;
    Ok(())
}

fn words(rt: &HostRuntime, k: &Security) -> io::Result<()> {
    Line::new()
        .text(b"  seed")
        .number(k[1])
        .number(k[0])
        .word(b"counts")
        .number(k[2])
        .number(k[36])
        .number(k[37])
        .word(b"locks")
        .number(k[3])
        .number(k[52])
        .number(k[53])
        .print(rt)?;
    Ok(())
}

fn level(level: u8, max_attempts: u8, seed_length: usize) -> SecurityLevelConfig {
    SecurityLevelConfig {
        level,
        max_attempts,
        lockout_duration: Duration(10_000),
        seed_length,
        key_length: 4,
    }
}

// Session 3, of whose P2 the low 16 bits are 01D0, and levels 1, 3 and 5, whose seeds have 31, 32 and 4 bytes.
fn configuration() -> Config {
    let extended = SessionConfig {
        session_type: 3,
        p2_timeout: Duration(66_000),
        p2_extended_timeout: Duration(50_009),
        s3_timeout: Duration(5000),
    };
    let c = build::with_session(build::new(16, 2015), extended);
    let one = build::with_security_level(c, level(1, 3, 31));
    let three = build::with_security_level(one, level(3, 3, 32));
    build::with_security_level(three, level(5, 255, 4))
}

fn main(rt: HostRuntime) -> io::Result<()> {
    let c = configuration();
    sessions::run(&rt, &c)?;
    keys::run(&rt, &c)?;
    Ok(())
}
