// A state at its edges: each number at its greatest and one above, and effects carried out. Of a number a line says whether the state is valid with it
// and with one more; of an effect it has the result, session, waiting frames, whether a request is pending, and its deadline; where a seed awaits its key,
// the result, the seed's length, session, level, subscriptions, the last request's moment, and whether that was functional. 1 is yes and 0 is no.
// What it must write was worked out by hand from the rules in docs/PROMISES.md, before the program ran.
#![tactic(auto)]

mod edges;
mod effects;

use config::{Config, build};
use lines::Line;
use state::SessionState;
use std::io;
use uds::clock::Instant;
use uds::rows::SessionConfig;

fn sessions(mut c: Config, n: u8) -> Config {
    for _ in 0..n {
        let next = build::with_session(c, SessionConfig::default_session());
        c = next;
    }
    c
}

// Another session: its level is not held yet, and the last request was when it was.
fn opened(rt: &HostRuntime) -> io::Result<()> {
    let session = SessionState {
        last_rx: Instant(7),
        session_type: 1,
        level: 2,
    };
    let next = session.opened(3);
    Line::new()
        .text(b"opened:")
        .number(u64::from(next.session_type))
        .number(u64::from(next.level))
        .number(next.last_rx.0)
        .print(rt)?;
    Ok(())
}

fn main(rt: HostRuntime) -> io::Result<()> {
    let c = sessions(build::new(16, 2015), 8);
    edges::fresh(&rt, &c)?;
    opened(&rt)?;
    edges::moments(&rt, &c)?;
    edges::secured(&rt, &c)?;
    edges::subscribed(&rt, &c)?;
    edges::framed(&rt, &c)?;
    let nine = sessions(build::new(16, 2015), 9);
    edges::configured(&rt, &c, &nine)?;
    effects::run(&rt, &c)?;
    Ok(())
}
