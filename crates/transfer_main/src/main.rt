// Runs 34, 36, 37 and 38 at the edges of their payloads and of what is handed in for their acts. Of each request two lines: what a question is told, and
// the act and the reply.
#![tactic(auto)]

use config::Config;
use lines::Line;
use queue::Room;
use queue::reply::Reply;
use service::{Act, Request, Spoken};
use std::io;

// Its number, then a start and a length for each argument.
fn act(line: Line, act: Act) -> Line {
    let mut line = line.hex(&[act.number]);
    for part in [act.a, act.b, act.c].iter().take(usize::from(act.parts)) {
        line = line.number(part.start as u64).number(part.len as u64);
    }
    line
}

// A positive reply stands after the first byte of the free place, here the first one.
fn reply(line: Line, reply: Reply, room: &Room) -> Line {
    match reply {
        Reply::Silent => line.word(b"silent"),
        Reply::Positive(n) => {
            let counted = line.word(b"positive").number(n as u64);
            if n == 0 {
                return counted;
            }
            counted.hex(service::first(uds::frame::payload(room), n))
        }
        Reply::Negative(code) => line.word(b"negative").hex(&[code]),
        Reply::Always(code) => line.word(b"always").hex(&[code]),
        Reply::Pends => line.word(b"pends"),
    }
}

// Two lines: what a question is told, and the answer to the request.
fn told(rt: &HostRuntime, ask: Result<Act, u8>, answer: Spoken, room: &Room) -> io::Result<()> {
    let asked = match ask {
        Err(code) => Line::new().word(b"refused").hex(&[code]),
        Ok(asks) => act(Line::new().word(b"asks"), asks),
    };
    asked.print(rt)?;
    reply(act(Line::new(), answer.act), answer.reply, room).print(rt)?;
    Ok(())
}

// None of these services looks at a configuration.
const NO_CONFIG: Config = [0; 3006];

// A request with what is handed in for its act.
fn requested<'a>(payload: &'a [u8], err: u8, given: &'a [u8]) -> Request<'a> {
    Request {
        err,
        given,
        ..Request::of(&NO_CONFIG, payload)
    }
}

fn run34(rt: &HostRuntime, payload: &[u8], err: u8, given: &[u8]) -> io::Result<()> {
    let mut room = [0u8; 4353];
    let request = requested(payload, err, given);
    let answer = transfer::service34::service34(&request, &mut room);
    told(rt, transfer::service34::ask34(&request), answer, &room)
}

fn run36(rt: &HostRuntime, payload: &[u8], err: u8, given: &[u8]) -> io::Result<()> {
    let mut room = [0u8; 4353];
    let request = requested(payload, err, given);
    let answer = transfer::service36::service36(&request, &mut room);
    told(rt, transfer::service36::ask36(&request), answer, &room)
}

fn run37(rt: &HostRuntime, payload: &[u8], err: u8, given: &[u8]) -> io::Result<()> {
    let mut room = [0u8; 4353];
    let request = requested(payload, err, given);
    let answer = transfer::service37::service37(&request, &mut room);
    told(rt, Ok(transfer::service37::ask37(&request)), answer, &room)
}

fn run38(rt: &HostRuntime, payload: &[u8], err: u8, given: &[u8]) -> io::Result<()> {
    let mut room = [0u8; 4353];
    let request = requested(payload, err, given);
    let answer = transfer::service38::service38(&request, &mut room);
    told(rt, transfer::service38::ask38(&request), answer, &room)
}

// Short payloads, lengths of nothing, both lengths, a byte less and a byte more, an address alone, a size alone, lengths of 15.
fn lengths34(rt: &HostRuntime) -> io::Result<()> {
    let both = [0xFFu8; 32];
    run34(rt, &[], 0, &[])?;
    run34(rt, &[0x00, 0x11], 0, &[])?;
    run34(rt, &[0x00, 0x00, 0x99], 0, &[0x20, 0x10, 0x00])?;
    run34(
        rt,
        &[0x11, 0x24, 0xA1, 0xA2, 0xB1, 0xB2, 0xB3, 0xB4],
        0,
        &[0x20],
    )?;
    run34(rt, &[0x11, 0x24, 0xA1, 0xA2, 0xB1, 0xB2, 0xB3], 0, &[0x20])?;
    run34(
        rt,
        &[0x11, 0x24, 0xA1, 0xA2, 0xB1, 0xB2, 0xB3, 0xB4, 0xCC],
        0,
        &[0x20],
    )?;
    run34(rt, &[0x00, 0x40, 0x01, 0x02, 0x03, 0x04], 0, &[0x20])?;
    run34(rt, &[0x00, 0x40, 0x01, 0x02, 0x03], 0, &[0x20])?;
    run34(rt, &[0x00, 0x02, 0x01, 0x02], 0, &[0x20])?;
    run34(rt, &[0x00, 0x02, 0x01], 0, &[0x20])?;
    run34(rt, &both[..32], 0, &[])?;
    run34(rt, &both[..31], 0, &[])?;
    Ok(())
}

// An act of 64 bytes, of 65, errors with and without bytes, a pending one.
fn acts34(rt: &HostRuntime) -> io::Result<()> {
    let bytes = [0x5Au8; 257];
    let request = [0x11, 0x24, 0xA1, 0xA2, 0xB1, 0xB2, 0xB3, 0xB4];
    run34(rt, &request[..8], 0, &bytes[..64])?;
    run34(rt, &request[..8], 0, &bytes[..65])?;
    run34(rt, &request[..8], 0x70, &[])?;
    run34(rt, &request[..8], 0x31, &bytes[..65])?;
    run34(rt, &request[..8], 0x78, &[])?;
    Ok(())
}

// No counter, a counter alone, a block, the longest block.
fn counters36(rt: &HostRuntime) -> io::Result<()> {
    let block = [0x07u8; 4094];
    run36(rt, &[], 0, &[])?;
    run36(rt, &[0x05], 0, &[])?;
    run36(rt, &[0xFF, 0x01, 0x02, 0x03], 0, &[0xAA])?;
    run36(rt, &block[..4094], 0, &[])?;
    Ok(())
}

// Acts that fill a reply, that are a byte over, of 256 and 257 bytes, errors, a pending one.
fn acts36(rt: &HostRuntime) -> io::Result<()> {
    let bytes = [0x5Au8; 257];
    run36(rt, &[0x01, 0x02], 0, &bytes[..255])?;
    run36(rt, &[0x01, 0x02], 0, &bytes[..256])?;
    run36(rt, &[0x01, 0x02], 0, &bytes[..257])?;
    run36(rt, &[0x01, 0x02], 0x73, &[])?;
    run36(rt, &[0x01, 0x02], 0x24, &bytes[..257])?;
    run36(rt, &[0x01, 0x02], 0x78, &[])?;
    Ok(())
}

// No payload and some; acts of no byte, of 256 and 257, errors, a pending one.
fn any37(rt: &HostRuntime) -> io::Result<()> {
    let bytes = [0x5Au8; 257];
    run37(rt, &[], 0, &[])?;
    run37(rt, &[0x01, 0x02], 0, &[0xC0])?;
    run37(rt, &[0x01], 0, &bytes[..256])?;
    run37(rt, &[0x01], 0, &bytes[..257])?;
    run37(rt, &[], 0x10, &[])?;
    run37(rt, &[], 0x78, &bytes[..257])?;
    Ok(())
}

// Short payloads, no path, a path that fits exactly, that is a byte short, that is followed by a byte; the same of 257 bytes; one that is far too long.
fn paths38(rt: &HostRuntime) -> io::Result<()> {
    let path = [0x01u8; 261];
    run38(rt, &[], 0, &[])?;
    run38(rt, &[0x01, 0x00], 0, &[])?;
    run38(rt, &[0x01, 0x00, 0x00], 0, &[])?;
    run38(rt, &[0x01, 0x00, 0x02, 0x61, 0x62], 0, &[0x01])?;
    run38(rt, &[0x01, 0x00, 0x02, 0x61], 0, &[0x01])?;
    run38(rt, &[0x01, 0x00, 0x02, 0x61, 0x62, 0x63], 0, &[0x01])?;
    run38(rt, &path[..260], 0, &[])?;
    run38(rt, &path[..259], 0, &[])?;
    run38(rt, &path[..261], 0, &[])?;
    run38(rt, &[0x01, 0xFF, 0xFF, 0x61], 0, &[])?;
    run38(rt, &[0x01, 0x02, 0x00, 0x61, 0x62], 0, &[])?;
    Ok(())
}

// Acts of 256 and 257 bytes, errors, a pending one.
fn acts38(rt: &HostRuntime) -> io::Result<()> {
    let bytes = [0x5Au8; 257];
    run38(rt, &[0x02, 0x00, 0x00], 0, &bytes[..256])?;
    run38(rt, &[0x02, 0x00, 0x00], 0, &bytes[..257])?;
    run38(rt, &[0x02, 0x00, 0x00], 0x70, &bytes[..257])?;
    run38(rt, &[0x02, 0x00, 0x00], 0x78, &[])?;
    Ok(())
}

fn main(rt: HostRuntime) -> io::Result<()> {
    lengths34(&rt)?;
    acts34(&rt)?;
    counters36(&rt)?;
    acts36(&rt)?;
    any37(&rt)?;
    paths38(&rt)?;
    acts38(&rt)?;
    Ok(())
}
