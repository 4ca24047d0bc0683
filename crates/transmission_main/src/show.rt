// What was said, and the frame that it becomes.
use lines::Line;
use periodic::Subscriptions;
use queue::Room;
use queue::reply::{Asker, Outbox, Reply};
use std::io;

// The reply: how many bytes, or the code.
fn said(line: Line, reply: Reply) -> Line {
    match reply {
        Reply::Silent => line.word(b"silent"),
        Reply::Positive(len) => line.word(b"positive").number(len as u64),
        Reply::Negative(code) => line.word(b"negative").hex(&[code]),
        Reply::Always(code) => line.word(b"always").hex(&[code]),
        Reply::Pends => line.word(b"pends"),
    }
}

// The frame's length, and as much of it as five bytes.
pub(crate) fn reply(
    rt: &HostRuntime,
    line: Line,
    reply: Reply,
    sid: u8,
    functional: bool,
    room: &mut Room,
) -> io::Result<()> {
    let mut heads = [0u32; 32];
    let told = said(line, reply);
    let mut outbox = Outbox {
        count: 0,
        heads: &mut heads,
        room: &mut *room,
    };
    let asker = Asker {
        functional,
        to: 16,
        sid,
    };
    if outbox.answer(asker, reply).is_err() || outbox.count == 0 {
        told.word(b"none").print(rt)?;
        return Ok(());
    }
    let len = heads[1] as usize;
    let frame = service::first(room, len);
    told.number(len as u64)
        .hex(service::first(frame, 5))
        .print(rt)?;
    Ok(())
}

// A subscription: its number, identifier, client, interval, and when it is next due.
pub(crate) fn entry(rt: &HostRuntime, subs: &Subscriptions, i: usize) -> io::Result<()> {
    let e = periodic::entry_at(subs, i);
    Line::new()
        .number(i as u64)
        .text(b":")
        .number(u64::from(e.identifier))
        .number(u64::from(e.client))
        .number(e.interval.0)
        .number(e.next.0)
        .print(rt)?;
    Ok(())
}
