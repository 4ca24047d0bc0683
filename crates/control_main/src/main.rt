// Runs 2F and 31 at the edges of their payloads and of what is handed in for their acts. Of each request two lines: what a question is told, and the act and
// the reply.
#![tactic(auto)]

use config::Config;
use lines::Line;
use queue::Room;
use queue::reply::Reply;
use service::{Act, Request, Spoken};
use std::io;

// Its number, then a start and a length for each argument.
fn act(line: Line, act: Act) -> Line {
    let mut line = line.hex(&[act.number]);
    for part in [act.a, act.b, act.c].iter().take(usize::from(act.parts)) {
        line = line.number(part.start as u64).number(part.len as u64);
    }
    line
}

// A positive reply stands after the first byte of the free place, here the first one.
fn reply(line: Line, reply: Reply, room: &Room) -> Line {
    match reply {
        Reply::Silent => line.word(b"silent"),
        Reply::Positive(n) => {
            let counted = line.word(b"positive").number(n as u64);
            if n == 0 {
                return counted;
            }
            counted.hex(service::first(uds::frame::payload(room), n))
        }
        Reply::Negative(code) => line.word(b"negative").hex(&[code]),
        Reply::Always(code) => line.word(b"always").hex(&[code]),
        Reply::Pends => line.word(b"pends"),
    }
}

// Two lines: what a question is told, and the answer to the request.
fn told(rt: &HostRuntime, ask: Result<Act, u8>, answer: Spoken, room: &Room) -> io::Result<()> {
    let asked = match ask {
        Err(code) => Line::new().word(b"refused").hex(&[code]),
        Ok(asks) => act(Line::new().word(b"asks"), asks),
    };
    asked.print(rt)?;
    reply(act(Line::new(), answer.act), answer.reply, room).print(rt)?;
    Ok(())
}

// None of these services looks at a configuration.
const NO_CONFIG: Config = [0; 3006];

// A request with what is handed in for its act.
fn requested<'a>(payload: &'a [u8], err: u8, given: &'a [u8]) -> Request<'a> {
    Request {
        err,
        given,
        ..Request::of(&NO_CONFIG, payload)
    }
}

fn run2F(rt: &HostRuntime, payload: &[u8], err: u8, given: &[u8]) -> io::Result<()> {
    let mut room = [0u8; 4353];
    let request = requested(payload, err, given);
    let answer = control::service2F::service2F(&request, &mut room);
    told(rt, control::service2F::ask2F(&request), answer, &room)
}

fn run31(rt: &HostRuntime, payload: &[u8], err: u8, given: &[u8]) -> io::Result<()> {
    let mut room = [0u8; 4353];
    let request = requested(payload, err, given);
    let answer = control::service31::service31(&request, &mut room);
    told(rt, control::service31::ask31(&request), answer, &room)
}

// Short payloads, no state, a state, the longest.
fn payloads2F(rt: &HostRuntime) -> io::Result<()> {
    let long = [0x07u8; 4094];
    run2F(rt, &[], 0, &[])?;
    run2F(rt, &[0xF1, 0x90], 0, &[])?;
    run2F(rt, &[0xF1, 0x90, 0x03], 0, &[])?;
    run2F(rt, &[0xF1, 0x90, 0x03, 0xAA, 0xBB], 0, &[0xAA, 0xBB])?;
    run2F(rt, &long[..4094], 0, &[0x01])?;
    Ok(())
}

// Acts that fill a reply, that are a byte over, of 256 and 257 bytes, errors, a pending one.
fn acts2F(rt: &HostRuntime) -> io::Result<()> {
    let bytes = [0x5Au8; 257];
    run2F(rt, &[0x12, 0x34, 0x00], 0, &bytes[..254])?;
    run2F(rt, &[0x12, 0x34, 0x00], 0, &bytes[..255])?;
    run2F(rt, &[0x12, 0x34, 0x00], 0, &bytes[..256])?;
    run2F(rt, &[0x12, 0x34, 0x00], 0, &bytes[..257])?;
    run2F(rt, &[0x12, 0x34, 0x00], 0x31, &[])?;
    run2F(rt, &[0x12, 0x34, 0x00], 0x33, &bytes[..257])?;
    run2F(rt, &[0x12, 0x34, 0x00], 0x78, &[])?;
    Ok(())
}

// Short payloads, no option, an option, sub-functions suppressed or not, the longest.
fn payloads31(rt: &HostRuntime) -> io::Result<()> {
    let long = [0x07u8; 4094];
    run31(rt, &[], 0, &[])?;
    run31(rt, &[0x01, 0x02], 0, &[])?;
    run31(rt, &[0x81, 0x02], 0, &[])?;
    run31(rt, &[0x01, 0x02, 0x03], 0, &[])?;
    run31(rt, &[0x7F, 0xFF, 0x00, 0xAA], 0, &[0xBB])?;
    run31(rt, &[0x81, 0x02, 0x03], 0, &[])?;
    run31(rt, &[0xFF, 0x02, 0x03, 0x04], 0, &[0x01])?;
    run31(rt, &[0x80, 0x02, 0x03], 0, &[])?;
    run31(rt, &long[..4094], 0, &[0x01])?;
    Ok(())
}

// Acts that fill a reply, that are a byte over, of 256 and 257 bytes, errors, a pending one.
fn acts31(rt: &HostRuntime) -> io::Result<()> {
    let bytes = [0x5Au8; 257];
    run31(rt, &[0x01, 0xAB, 0xCD], 0, &bytes[..253])?;
    run31(rt, &[0x01, 0xAB, 0xCD], 0, &bytes[..254])?;
    run31(rt, &[0x01, 0xAB, 0xCD], 0, &bytes[..256])?;
    run31(rt, &[0x01, 0xAB, 0xCD], 0, &bytes[..257])?;
    run31(rt, &[0x01, 0xAB, 0xCD], 0x31, &[])?;
    run31(rt, &[0x01, 0xAB, 0xCD], 0x78, &[])?;
    Ok(())
}

// The same, suppressed.
fn suppressed31(rt: &HostRuntime) -> io::Result<()> {
    let bytes = [0x5Au8; 257];
    run31(rt, &[0x81, 0xAB, 0xCD], 0, &bytes[..253])?;
    run31(rt, &[0x81, 0xAB, 0xCD], 0, &bytes[..254])?;
    run31(rt, &[0x81, 0xAB, 0xCD], 0, &bytes[..257])?;
    run31(rt, &[0x81, 0xAB, 0xCD], 0x31, &[])?;
    run31(rt, &[0x81, 0xAB, 0xCD], 0x78, &[])?;
    Ok(())
}

fn main(rt: HostRuntime) -> io::Result<()> {
    payloads2F(&rt)?;
    acts2F(&rt)?;
    payloads31(&rt)?;
    acts31(&rt)?;
    suppressed31(&rt)?;
    Ok(())
}
