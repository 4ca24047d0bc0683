// Runs the queue at its edges and writes every byte that it drains. A line is the result and how many frames wait; of a drain it is
// the result, how many frames were written and how many wait then, and the next line the whole buffer.
#![tactic(auto)]

use lines::Line;
use queue::reply::{Asker, Outbox, Reply};
use std::io;
use uds::result::{DONE, Refusal};

// One line: the answer to a push.
fn told(rt: &HostRuntime, outbox: &Outbox, done: Result<(), Refusal>) -> io::Result<()> {
    let result = match done {
        Ok(()) => DONE,
        Err(why) => u8::from(why),
    };
    Line::new()
        .number(u64::from(result))
        .number(u64::from(outbox.count))
        .print(rt)?;
    Ok(())
}

// Two lines: the answer to a drain, and the buffer.
fn drain(rt: &HostRuntime, outbox: &Outbox, out: &mut [u8]) -> io::Result<()> {
    let drained = queue::drain::drain(outbox.count, &*outbox.heads, &*outbox.room, out);
    Line::new()
        .number(u64::from(drained.result))
        .number(u64::from(drained.frames))
        .number(u64::from(drained.count))
        .print(rt)?;
    Line::new().lower_hex(out).print(rt)?;
    Ok(())
}

// A reply in the making, of these bytes alone.
fn draft(outbox: &mut Outbox, bytes: &[u8]) -> Option<usize> {
    let count = outbox.count;
    queue::draft::extend(&mut *outbox.room, count, 0, bytes)
}

// What a service says, carried out and told.
fn answer(rt: &HostRuntime, outbox: &mut Outbox, asker: Asker, reply: Reply) -> io::Result<()> {
    let done = outbox.answer(asker, reply);
    told(rt, &*outbox, done)
}

// A positive reply of three bytes to destination 3712.
fn reply(rt: &HostRuntime, outbox: &mut Outbox, i: u8) -> io::Result<()> {
    let said = queue::draft::said(draft(&mut *outbox, &[i, 0xA5]));
    let asker = Asker {
        functional: false,
        to: 3712,
        sid: 0x22,
    };
    answer(rt, outbox, asker, said)
}

// Sixteen records of eleven bytes, into a buffer that is a byte short, exactly full, and four bytes longer. Of seventeen replies the
// last finds sixteen waiting.
fn full(rt: &HostRuntime) -> io::Result<()> {
    let mut room = [0u8; 4353];
    let mut heads = [0u32; 32];
    let mut outbox = Outbox {
        count: 0,
        heads: &mut heads,
        room: &mut room,
    };
    for i in 0..17 {
        reply(rt, &mut outbox, i)?;
    }
    let mut short = [0xEEu8; 175];
    drain(rt, &outbox, &mut short)?;
    let mut exact = [0xEEu8; 176];
    drain(rt, &outbox, &mut exact)?;
    let mut longer = [0xEEu8; 180];
    drain(rt, &outbox, &mut longer)
}

// What is said with a reply in the making, after a physical request.
fn say(rt: &HostRuntime, outbox: &mut Outbox, drafted: Option<usize>) -> io::Result<()> {
    let asker = Asker {
        functional: false,
        to: 16,
        sid: 0x36,
    };
    answer(rt, outbox, asker, queue::draft::said(drafted))
}

// A byte put behind `len` others, and said.
fn put(rt: &HostRuntime, outbox: &mut Outbox, len: usize) -> io::Result<()> {
    let count = outbox.count;
    let drafted = queue::draft::put(&mut *outbox.room, count, len, 7);
    say(rt, outbox, drafted)
}

// Replies of 256 and of 257 bytes, the second refused with 0x14; a byte past what a reply in the making may hold; and a byte put.
fn long(rt: &HostRuntime) -> io::Result<()> {
    let mut room = [0u8; 4353];
    let mut heads = [0u32; 32];
    let mut outbox = Outbox {
        count: 0,
        heads: &mut heads,
        room: &mut room,
    };
    let bytes = [0x5Au8; 256];
    let most = draft(&mut outbox, &bytes[..255]);
    say(rt, &mut outbox, most)?;
    let over = draft(&mut outbox, &bytes);
    say(rt, &mut outbox, over)?;
    draft(&mut outbox, &bytes);
    put(rt, &mut outbox, 256)?;
    put(rt, &mut outbox, 0)?;
    let mut out = [0u8; 296];
    drain(rt, &outbox, &mut out)
}

// A reply after a functional request, told.
fn after(rt: &HostRuntime, outbox: &mut Outbox, sid: u8, reply: Reply) -> io::Result<()> {
    let asker = Asker {
        functional: true,
        to: 16,
        sid,
    };
    answer(rt, outbox, asker, reply)
}

// A periodic frame of a first byte and `len` more, told.
fn send(rt: &HostRuntime, outbox: &mut Outbox, len: usize) -> io::Result<()> {
    let done = outbox.send(3712, 1, len);
    told(rt, &*outbox, done)
}

// What is withheld after a functional request and what is sent all the same; and a periodic frame, of 257 bytes and of three.
fn functional(rt: &HostRuntime) -> io::Result<()> {
    let mut room = [0u8; 4353];
    let mut heads = [0u32; 32];
    let mut outbox = Outbox {
        count: 0,
        heads: &mut heads,
        room: &mut room,
    };
    after(rt, &mut outbox, 0x22, Reply::Negative(0x31))?;
    after(rt, &mut outbox, 0x22, Reply::Negative(0x33))?;
    after(rt, &mut outbox, 0x2A, Reply::Always(0x31))?;
    after(rt, &mut outbox, 0x31, Reply::Pends)?;
    after(rt, &mut outbox, 0x3E, Reply::Silent)?;
    send(rt, &mut outbox, 256)?;
    draft(&mut outbox, &[9, 8]);
    send(rt, &mut outbox, 2)?;
    let mut out = [0u8; 44];
    drain(rt, &outbox, &mut out)
}

fn main(rt: HostRuntime) -> io::Result<()> {
    full(&rt)?;
    long(&rt)?;
    functional(&rt)
}
