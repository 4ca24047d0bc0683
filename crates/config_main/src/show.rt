// What the test writes.
use config::Config;
use lines::Line;
use std::io;
use uds::table::examined;

// What was looked up, its key, the row, and the rows examined.
fn line(
    rt: &HostRuntime,
    what: &[u8],
    key: u64,
    found: Option<usize>,
    rows: usize,
) -> io::Result<()> {
    row(Line::new().text(what).number(key).text(b":"), found)
        .text(b",")
        .number(examined(found, rows) as u64)
        .text(b" examined")
        .print(rt)?;
    Ok(())
}

fn row(line: Line, found: Option<usize>) -> Line {
    match found {
        Some(i) => line.number(i as u64),
        None => line.text(b" -"),
    }
}

pub(crate) fn session(rt: &HostRuntime, c: &Config, key: u8) -> io::Result<()> {
    line(
        rt,
        b"session",
        u64::from(key),
        config::find_session(c, key),
        config::session_count(c),
    )?;
    Ok(())
}

pub(crate) fn service(rt: &HostRuntime, c: &Config, key: u8) -> io::Result<()> {
    line(
        rt,
        b"service",
        u64::from(key),
        config::find_service(c, key),
        config::service_count(c),
    )?;
    Ok(())
}

pub(crate) fn did(rt: &HostRuntime, c: &Config, key: u16) -> io::Result<()> {
    line(
        rt,
        b"identifier",
        u64::from(key),
        config::find_did(c, key),
        config::did_count(c),
    )?;
    Ok(())
}

pub(crate) fn level(rt: &HostRuntime, c: &Config, key: u8) -> io::Result<()> {
    line(
        rt,
        b"level",
        u64::from(key),
        config::find_security_level(c, key),
        config::security_level_count(c),
    )?;
    Ok(())
}

pub(crate) fn flag(rt: &HostRuntime, what: &[u8], yes: bool) -> io::Result<()> {
    if yes {
        Line::new().text(what).text(b": yes").print(rt)?;
    } else {
        Line::new().text(what).text(b": no").print(rt)?;
    }
    Ok(())
}

pub(crate) fn value(rt: &HostRuntime, what: &[u8], n: u64) -> io::Result<()> {
    Line::new().text(what).text(b":").number(n).print(rt)?;
    Ok(())
}
