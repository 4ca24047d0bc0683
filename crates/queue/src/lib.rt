// The waiting frames: where they lie, and how a reply is made where it will wait.
#![tactic(auto)]

ghost use Rattle.std.specs.Prelude.{◌≡◌, ◌+◌, ◌≤◌, length};
ghost use Rattle.queue.specs.View.{place_of};
ghost use Rattle.queue.specs.Over.{over};

pub mod draft;
pub mod drain;
pub mod reply;

// Sixteen places of 256 bytes; a seventeenth, in which a reply is made where all sixteen are taken; and one byte more, since a
// reading may hold 256 bytes after the first byte of its place before it is refused. It is bytes, and the heads are words, because C lends them.
pub type Room = [u8; 4353];

// The destination and the length of each frame that waits.
pub type Heads = [u32; 32];

const MAX_FRAME: usize = 256;

const OUTBOX: u8 = 16;

// Where the free place begins.
fn place(count: u8) -> usize
    ensures { result ≡ place_of count }
{
    MAX_FRAME * usize::from(count.min(OUTBOX))
}

// Bytes put over a buffer from a place on.
fn write(buffer: &mut [u8], at: usize, bytes: &[u8])
    requires { at + length bytes.now ≤ length buffer.old }
    ensures { buffer.new ≡ over buffer.old at bytes.now }
{
    for (i, b) in bytes.iter().enumerate() {
        buffer[at + i] = *b;
    }
}
