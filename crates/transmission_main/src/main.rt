// 22, 2E and 2A at their edges. A line says what is asked and what is said: the reply, and the frame that it becomes, by its length and its first bytes.
// Of 2E it also has the act, of 2A how many subscriptions stand. What it must write was worked out by hand from the rules in docs/PROMISES.md, before the
// program ran.
#![tactic(auto)]

mod reading;
mod show;
mod subscribing;
mod writing;

use config::{Config, build};
use std::io;
use uds::clock::Duration;
use uds::rows::DidConfig;

// F190 of level 0 and F191 of level 1, written in session 3 alone; F201 of level 0, and F202 of level 2 with a minimum of 3000.
fn configured() -> Config {
    let both = b"\x01\x03";
    let rows = [
        DidConfig::read_write(0xF190, both, b"\x03"),
        DidConfig::read_write(0xF191, both, b"\x03").secured(1),
        DidConfig::read_only(0xF201, both),
        DidConfig::read_only(0xF202, both)
            .secured(2)
            .periodic(Duration(3000)),
    ];
    rows.into_iter().fold(build::new(16, 2015), build::with_did)
}

fn main(rt: HostRuntime) -> io::Result<()> {
    let c = configured();
    reading::values(&rt, &c)?;
    reading::lengths(&rt, &c)?;
    reading::seconds(&rt, &c)?;
    reading::limits(&rt, &c)?;
    writing::refused(&rt, &c)?;
    writing::done(&rt, &c)?;
    subscribing::several(&rt, &c)?;
    subscribing::full(&rt, &c)?;
    subscribing::late(&rt, &c)?;
    Ok(())
}
