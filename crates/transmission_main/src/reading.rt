// 22: values of 0 to 257 bytes, payloads that are short or odd, and readings that fail at the second identifier.
use super::show;
use config::Config;
use lines::Line;
use service::Request;
use std::io;

// A reading in session 1, where the value of F190 has so many bytes, and that of F191 one byte and this error byte.
fn read(
    rt: &HostRuntime,
    what: &[u8],
    c: &Config,
    level: u8,
    len: u32,
    err: u32,
    payload: &[u8],
) -> io::Result<()> {
    let mut room = [0u8; 4353];
    let pool = [0x5Au8; 300];
    let values = [0xF190u32, 0, 0, len, 0xF191, err, 10, 1];
    let request = Request {
        level,
        values: &values,
        pool: &pool,
        ..Request::of(c, payload)
    };
    let spoken = data::service22::service22(&request, &mut room);
    show::reply(
        rt,
        Line::new().text(what),
        spoken.reply,
        0x22,
        false,
        &mut room,
    )?;
    Ok(())
}

pub(crate) fn values(rt: &HostRuntime, c: &Config) -> io::Result<()> {
    let one = b"\xF1\x90";
    read(rt, b"0 bytes:", c, 0, 0, 0, one)?;
    read(rt, b"1 byte:", c, 0, 1, 0, one)?;
    read(rt, b"252 bytes:", c, 0, 252, 0, one)?;
    read(rt, b"253 bytes:", c, 0, 253, 0, one)?;
    read(rt, b"254 bytes:", c, 0, 254, 0, one)?;
    read(rt, b"255 bytes:", c, 0, 255, 0, one)?;
    read(rt, b"256 bytes:", c, 0, 256, 0, one)?;
    read(rt, b"257 bytes:", c, 0, 257, 0, one)?;
    Ok(())
}

pub(crate) fn lengths(rt: &HostRuntime, c: &Config) -> io::Result<()> {
    read(rt, b"empty:", c, 0, 1, 0, b"")?;
    read(rt, b"half an identifier:", c, 0, 1, 0, b"\xF1")?;
    read(rt, b"one and a half:", c, 0, 1, 0, b"\xF1\x90\xF1")?;
    Ok(())
}

pub(crate) fn seconds(rt: &HostRuntime, c: &Config) -> io::Result<()> {
    let two = b"\xF1\x90\xF1\x91";
    read(rt, b"second unknown:", c, 0, 1, 0, b"\xF1\x90\xF1\xFF")?;
    read(rt, b"second not held:", c, 0, 1, 0, two)?;
    read(rt, b"second held:", c, 1, 1, 0, two)?;
    read(rt, b"second in error:", c, 1, 1, 0x72, two)?;
    read(rt, b"second pends:", c, 1, 1, 0x78, two)?;
    Ok(())
}

// A reading of 256 bytes, and what is looked at after it; one of 254 and one of 253 before three bytes more.
pub(crate) fn limits(rt: &HostRuntime, c: &Config) -> io::Result<()> {
    let two = b"\xF1\x90\xF1\x91";
    read(rt, b"256, then unknown:", c, 0, 254, 0, b"\xF1\x90\xF1\xFF")?;
    read(rt, b"256, then not held:", c, 0, 254, 0, two)?;
    read(rt, b"256, then held:", c, 1, 254, 0, two)?;
    read(rt, b"254, then held:", c, 1, 252, 0, two)?;
    read(rt, b"253, then held:", c, 1, 251, 0, two)?;
    Ok(())
}
