// Lookups at first, last, duplicate and missing keys, in the fixed configuration of `udstrace` and in a full one. A line has what was
// looked up, its key, the number of the row that was found (`-` for none), and how many rows were examined.
#![tactic(auto)]

mod full;
mod show;

use config::Config;
use lines::Line;
use show::flag;
use std::io;

fn rows(rt: &HostRuntime, c: &Config) -> io::Result<()> {
    show::session(rt, c, 1)?;
    show::session(rt, c, 3)?;
    show::session(rt, c, 8)?;
    show::session(rt, c, 5)?;
    show::service(rt, c, 0x3E)?;
    show::service(rt, c, 0x38)?;
    show::service(rt, c, 0x14)?;
    Ok(())
}

fn more_rows(rt: &HostRuntime, c: &Config) -> io::Result<()> {
    show::did(rt, c, 0xF190)?;
    show::did(rt, c, 0xF201)?;
    show::did(rt, c, 0xF202)?;
    show::level(rt, c, 3)?;
    show::level(rt, c, 5)?;
    Ok(())
}

fn sessions_listed(rt: &HostRuntime, c: &Config) -> io::Result<()> {
    flag(rt, b"3E in session 3", config::service_allowed(c, 0x3E, 3))?;
    flag(rt, b"3E in session 2", config::service_allowed(c, 0x3E, 2))?;
    flag(
        rt,
        b"F190 read in session 1",
        config::did_readable(c, 0xF190, 1),
    )?;
    flag(
        rt,
        b"F190 written in session 2",
        config::did_writable(c, 0xF190, 2),
    )?;
    Ok(())
}

fn main(rt: HostRuntime) -> io::Result<()> {
    let c = fixed::configuration();
    flag(&rt, b"fixed: within", config::within(&c))?;
    rows(&rt, &c)?;
    more_rows(&rt, &c)?;
    sessions_listed(&rt, &c)?;
    full::run(&rt)?;
    Line::new().text(b"done").print(&rt)?;
    Ok(())
}
