// A reply in the making: it stands after the first byte of the free place, where it will wait, and nothing shows it before it is pushed.
ghost use Rattle.std.specs.Prelude.{◌≡◌, ℕ, List, [], ◌∷◌};
ghost use Rattle.model.specs.Service22.{read_reply};
ghost use Rattle.queue.specs.View.{reply_of, reading_of, Drafts};

use super::Room;
use super::reply::Reply;
use uds::nrc::Nrc;

// Bytes appended to a reply in the making of `len` bytes, which may hold 256: how many it has then, or None where it would be too long.
pub fn extend(room: &mut Room, count: u8, len: usize, bytes: &[u8]) -> Option<usize>
    ensures { Drafts count len bytes.now room.old result room.new }
{
    let longer = len.saturating_add(bytes.len());
    if super::MAX_FRAME < longer {
        return None;
    }
    super::write(room, super::place(count) + 1 + len, bytes);
    Some(longer)
}

// One byte appended.
pub fn put(room: &mut Room, count: u8, len: usize, b: u8) -> Option<usize>
    ensures { Drafts count len (b ∷ []) room.old result room.new }
{
    extend(room, count, len, &[b])
}

// What is said with it: the reply that was made, or 0x14. The promise is for every count and room.
pub fn said(drafted: Option<usize>) -> Reply
    ensures { (count : ℕ) (room : List ℕ) → reply_of result count room ≡ read_reply (reading_of drafted count room) }
{
    match drafted {
        Some(len) => Reply::Positive(len),
        None => Reply::Negative(Nrc::RESPONSE_TOO_LONG),
    }
}
