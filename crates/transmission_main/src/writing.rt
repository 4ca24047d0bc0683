// 2E: refused before the act, and answered by its outcome. The act is its number, how many parts, and the first two of them.
use super::show;
use config::Config;
use lines::Line;
use service::Request;
use std::io;

fn write(
    rt: &HostRuntime,
    what: &[u8],
    c: &Config,
    session: u8,
    level: u8,
    payload: &[u8],
    err: u8,
    given: &[u8],
) -> io::Result<()> {
    let mut room = [0u8; 4353];
    let request = Request {
        session,
        level,
        err,
        given,
        ..Request::of(c, payload)
    };
    let spoken = data::service2E::service2E(&request, &mut room);
    let act = spoken.act;
    let line = Line::new()
        .text(what)
        .hex(&[act.number])
        .number(u64::from(act.parts))
        .number(act.a.start as u64)
        .number(act.a.len as u64)
        .number(act.b.start as u64)
        .number(act.b.len as u64);
    show::reply(rt, line, spoken.reply, 0x2E, false, &mut room)?;
    Ok(())
}

pub(crate) fn refused(rt: &HostRuntime, c: &Config) -> io::Result<()> {
    write(rt, b"short:", c, 3, 0, b"\xF1\x90", 0, b"")?;
    write(rt, b"unknown:", c, 3, 0, b"\xF1\xFF\x01", 0, b"")?;
    write(
        rt,
        b"not in this session:",
        c,
        1,
        0,
        b"\xF1\x90\x01",
        0,
        b"",
    )?;
    write(rt, b"not held:", c, 3, 0, b"\xF1\x91\x01", 0, b"")?;
    Ok(())
}

pub(crate) fn done(rt: &HostRuntime, c: &Config) -> io::Result<()> {
    let given = [0u8; 257];
    write(rt, b"held:", c, 3, 1, b"\xF1\x91\x01", 0, b"")?;
    write(
        rt,
        b"four bytes:",
        c,
        3,
        0,
        b"\xF1\x90\x01\x02\x03\x04",
        0,
        b"",
    )?;
    write(rt, b"error:", c, 3, 0, b"\xF1\x90\x01", 0x31, b"")?;
    write(rt, b"pends:", c, 3, 0, b"\xF1\x90\x01", 0x78, b"")?;
    write(
        rt,
        b"256 given:",
        c,
        3,
        0,
        b"\xF1\x90\x01",
        0,
        &given[..256],
    )?;
    write(rt, b"257 given:", c, 3, 0, b"\xF1\x90\x01", 0, &given)?;
    Ok(())
}
