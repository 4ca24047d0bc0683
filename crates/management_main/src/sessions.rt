// 3E, 10, 11 and 28, in session 1 with level 2 held.
use super::{handed, requested, spoken, wanted};
use config::Config;
use management::service3E::service3E;
use management::service10::service10;
use management::service11::service11;
use management::service28::service28;
use queue::Room;
use service::Request;
use std::io;

fn tester_present(rt: &HostRuntime, what: &[u8], request: &Request) -> io::Result<()> {
    let mut room: Room = [0; 4353];
    let s = service3E(request, &mut room);
    spoken(rt, what, s, &room)?;
    Ok(())
}

fn session(rt: &HostRuntime, what: &[u8], request: &Request) -> io::Result<()> {
    let mut room: Room = [0; 4353];
    let w = service10(request, &mut room);
    wanted(rt, what, w, &room)?;
    Ok(())
}

fn reset(rt: &HostRuntime, what: &[u8], request: &Request) -> io::Result<()> {
    let mut room: Room = [0; 4353];
    let w = service11(request, &mut room);
    wanted(rt, what, w, &room)?;
    Ok(())
}

fn communication(rt: &HostRuntime, what: &[u8], request: &Request) -> io::Result<()> {
    let mut room: Room = [0; 4353];
    let s = service28(request, &mut room);
    spoken(rt, what, s, &room)?;
    Ok(())
}

pub(crate) fn run(rt: &HostRuntime, c: &Config) -> io::Result<()> {
    tester_present(rt, b"3E 00:", &requested(c, b"\x00"))?;
    tester_present(rt, b"3E:", &requested(c, b""))?;
    tester_present(rt, b"3E 80:", &requested(c, b"\x80"))?;
    tester_present(rt, b"3E 01 02:", &requested(c, b"\x01\x02"))?;
    session(rt, b"10:", &requested(c, b""))?;
    session(rt, b"10 07:", &requested(c, b"\x07"))?;
    session(rt, b"10 03:", &requested(c, b"\x03"))?;
    session(rt, b"10 83:", &requested(c, b"\x83"))?;
    reset(rt, b"11:", &requested(c, b""))?;
    reset(rt, b"11 01:", &requested(c, b"\x01"))?;
    reset(rt, b"11 81:", &handed(c, b"\x81", 0, &[0; 256]))?;
    reset(rt, b"11 01, error 33:", &handed(c, b"\x01", 0x33, b""))?;
    reset(rt, b"11 81, error 78:", &handed(c, b"\x81", 0x78, b""))?;
    reset(rt, b"11 01, 257 bytes:", &handed(c, b"\x01", 0, &[0; 257]))?;
    communication(rt, b"28 00:", &requested(c, b"\x00"))?;
    communication(rt, b"28 03 01:", &requested(c, b"\x03\x01"))?;
    communication(rt, b"28 83 01:", &requested(c, b"\x83\x01"))?;
    communication(
        rt,
        b"28 83 01, error 31:",
        &handed(c, b"\x83\x01", 0x31, b""),
    )?;
    Ok(())
}
