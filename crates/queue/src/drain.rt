// Drain: the waiting frames as records in a lent buffer. A record is a u16 length of what follows the kind, the u16 kind 1, the u32
// destination and the frame; numbers are little-endian.
ghost use Rattle.std.specs.Prelude.{◌≡◌, ℕ, ◌+◌, ◌*◌, ◌≤◌, ◌<◌, List, ◌++◌, length};
ghost use Rattle.model.specs.Numbers.{max_frame, max_outbox};
ghost use Rattle.model.specs.Config.{table_within};
ghost use Rattle.model.specs.State.{frame_valid};
ghost use Rattle.model.specs.Queue.{u16, u32, record1, records, drained};
ghost use Rattle.queue.specs.Over.{over};
ghost use Rattle.queue.specs.View.{room_size, Framed, head_at, queue_of, drain_of};

use super::{Heads, Room};
use uds::result::{DONE, Refusal};

// The result, how many frames were written, and how many wait then. It goes to C, so it holds a number and no Result.
#[repr(C)]
#[derive(Clone, Copy)]
pub struct Drained {
    pub result: u8,
    pub frames: u8,
    pub count: u8,
}

// A word of the heads.
fn head_word(heads: &Heads, at: usize) -> u32
    requires { at < 32 }
    ensures { result ≡ head_at heads.now at }
{
    heads[at]
}

// The length of frame `i`.
fn frame_length(heads: &Heads, i: usize) -> usize
    requires { i < 16 }
    ensures { result ≡ head_at heads.now (2 * i + 1) }
{
    head_word(heads, 2 * i + 1) as usize
}

// At most sixteen frames are counted, and each has 1 to 256 bytes. The promise is for every room.
fn heads_valid(count: u8, heads: &Heads) -> bool
    ensures { (room : List ℕ) → length room ≡ room_size → result ≡ table_within max_outbox (frame_valid max_frame) (queue_of count heads.now room) }
{
    if super::OUTBOX < count {
        return false;
    }
    for i in 0..usize::from(count) {
        let len = frame_length(heads, i);
        if len == 0 || super::MAX_FRAME < len {
            return false;
        }
    }
    true
}

// The queue is valid: that stands in the heads alone, since every room has all its places.
pub fn frames_valid(count: u8, heads: &Heads, room: &Room) -> bool
    ensures { result ≡ table_within max_outbox (frame_valid max_frame) (queue_of count heads.now room.now) }
{
    heads_valid(count, heads)
}

// How many bytes the records of a valid queue take. The promise is for every room.
fn records_length(n: usize, heads: &Heads) -> usize
    requires { Framed n heads.now }
    ensures { (room : List ℕ) → length room ≡ room_size → result ≡ length (records (queue_of n heads.now room)) }
{
    let mut total = 0;
    for i in 0..n {
        total += 8 + frame_length(heads, i);
    }
    total
}

// What stands before the frame in a record.
fn header(to: u32, len: usize) -> [u8; 8]
    requires { len ≤ 256 }
    ensures { result ≡ u16 (4 + len) ++ (u16 1 ++ u32 to) }
{
    let mut head = [0; 8];
    head[..2].copy_from_slice(&((4 + len) as u16).to_le_bytes());
    head[2..4].copy_from_slice(&1u16.to_le_bytes());
    head[4..].copy_from_slice(&to.to_le_bytes());
    head
}

// One record, written from `at` on; the place after it.
#[tactic(auto, using(crate::proofs::Records::record_written))]
fn write_record(out: &mut [u8], at: usize, to: u32, frame: &[u8]) -> usize
    requires { (length frame.now ≤ 256) × (at + (8 + length frame.now) ≤ length out.old) }
    ensures { (out.new ≡ over out.old at (record1 (record { dst = to; bytes = frame.now }))) × (result ≡ at + (8 + length frame.now)) }
{
    let len = frame.len();
    let head = header(to, len);
    super::write(out, at, &head);
    super::write(out, at + 8, frame);
    at + 8 + len
}

// Every record of a valid queue, oldest first.
fn write_records(n: usize, heads: &Heads, room: &[u8], out: &mut [u8])
    requires { Framed n heads.now × (length room.now ≡ room_size) × (length (records (queue_of n heads.now room.now)) ≤ length out.old) }
    ensures { out.new ≡ over out.old 0 (records (queue_of n heads.now room.now)) }
{
    let mut at = 0;
    for i in 0..n {
        let start = super::MAX_FRAME * i;
        let end = start + frame_length(heads, i);
        at = write_record(out, at, head_word(heads, 2 * i), &room[start..end]);
    }
}

// The records, with the rest of the buffer as it was, and no frame waits then. Else nothing changes: 10 where the queue is not valid,
// 5 where the records exceed the buffer.
#[tactic(auto, using(crate::proofs::Records::drains))]
pub fn drain(count: u8, heads: &Heads, room: &Room, out: &mut [u8]) -> Drained
    ensures { drain_of result heads.now room.now out.new ≡ drained max_frame (queue_of count heads.now room.now) out.old }
{
    if !heads_valid(count, heads) {
        return Drained {
            result: Refusal::StateNotValid as u8,
            frames: 0,
            count,
        };
    }
    let n = usize::from(count);
    if out.len() < records_length(n, heads) {
        return Drained {
            result: Refusal::BufferTooShort as u8,
            frames: 0,
            count,
        };
    }
    write_records(n, heads, room, out);
    Drained {
        result: DONE,
        frames: count,
        count: 0,
    }
}
