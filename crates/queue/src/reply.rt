// What a service says, queued: positive and negative frames, and the rule of functional requests.
ghost use Rattle.std.specs.Prelude.{◌≡◌, ◌≤◌, ◌<◌, ◌↔◌, ◌∷◌, true, length};
ghost use Rattle.model.specs.Frame.{negative_frame};
ghost use Rattle.model.specs.Numbers.{max_frame};
ghost use Rattle.model.specs.Queue.{pushed, refused, confirmed, answered, sent};
ghost use Rattle.queue.specs.View.{draft_of, mode_of, reply_of, queue_in, step_in, Pushes};

use super::{Heads, Room};
use uds::nrc::Nrc;
use uds::result::Refusal;

// What a service says. A positive payload stands in the free place, and is told by its length.
#[derive(Clone, Copy)]
pub enum Reply {
    Silent,
    Positive(usize),
    Negative(u8),
    Always(u8),
    Pends,
}

// The waiting frames: how many there are, their heads, and the room that they wait in, with the free place behind them.
#[derive(Drop)]
pub struct Outbox<'a> {
    pub count: u8,
    pub heads: &'a mut Heads,
    pub room: &'a mut Room,
}

// Whom a reply is for: how the request was addressed, who is answered, and for which service.
#[derive(Clone, Copy, PartialEq, Eq)]
pub struct Asker {
    pub functional: bool,
    pub to: u32,
    pub sid: u8,
}

// A reply in the making leaves room in a frame for the byte before it. It takes the room, since a proof knows the length of a room that
// is lent to it, and not of one behind the reference in an outbox.
#[tactic(auto, using(crate::proofs::Room::draft_length))]
fn fits(count: u8, room: &Room, len: usize) -> bool
    ensures { (result ≡ true) ↔ (length (draft_of count len room.now) < max_frame) }
{
    len < super::MAX_FRAME
}

impl Outbox<'_> {
    // The first bytes of the free place become a frame that waits, or a refusal where sixteen wait. The promise is for every room.
    #[tactic(auto, using(crate::proofs::Laws::pushes))]
    fn push(&mut self, to: u32, len: usize) -> Result<(), Refusal>
        requires { len ≤ 256 }
        ensures heads { self.new.heads.ghost_name ≡ self.old.heads.ghost_name }
        ensures room { self.new.room.ghost_name ≡ self.old.room.ghost_name }
        ensures kept { self.new.room.now ≡ self.old.room.now }
        ensures pushes { Pushes self.old.count to len self.old.heads.now result self.new.count self.new.heads.now }
    {
        if super::OUTBOX <= self.count {
            return Err(Refusal::QueueFull);
        }
        let at = 2 * usize::from(self.count);
        // lent anew, so that a proof knows their length
        let heads = &mut *self.heads;
        heads[at] = to;
        heads[at + 1] = len as u32;
        self.count += 1;
        Ok(())
    }

    // A negative frame, sent however the request was addressed.
    pub fn negative(&mut self, to: u32, sid: u8, code: u8) -> Result<(), Refusal>
        ensures heads { self.new.heads.ghost_name ≡ self.old.heads.ghost_name }
        ensures room { self.new.room.ghost_name ≡ self.old.room.ghost_name }
        ensures step { step_in result self.new ≡ pushed (queue_in self.old) to (negative_frame sid code) }
    {
        let at = super::place(self.count);
        super::write(&mut *self.room, at, &[0x7F, sid, code]);
        self.push(to, 3)
    }

    // A negative frame, withheld after a functional request for the five codes.
    #[tactic(auto, using(crate::proofs::Laws::refusals))]
    pub fn refuse(&mut self, asker: Asker, code: u8) -> Result<(), Refusal>
        ensures heads { self.new.heads.ghost_name ≡ self.old.heads.ghost_name }
        ensures room { self.new.room.ghost_name ≡ self.old.room.ghost_name }
        ensures step { step_in result self.new ≡ refused (mode_of asker.functional) (queue_in self.old) asker.to asker.sid code }
    {
        if asker.functional && Nrc(code).withheld() {
            return Ok(());
        }
        self.negative(asker.to, asker.sid, code)
    }

    // The reply in the making behind a first byte, or a refusal where that exceeds a frame: so a periodic identifier's value is sent.
    #[tactic(auto, using(crate::proofs::Laws::sends))]
    pub fn send(&mut self, to: u32, first: u8, len: usize) -> Result<(), Refusal>
        ensures heads { self.new.heads.ghost_name ≡ self.old.heads.ghost_name }
        ensures room { self.new.room.ghost_name ≡ self.old.room.ghost_name }
        ensures step { step_in result self.new ≡ sent max_frame (queue_in self.old) to (first ∷ draft_of self.old.count len self.old.room.now) }
    {
        if !fits(self.count, &*self.room, len) {
            return Err(Refusal::FrameTooLong);
        }
        let at = super::place(self.count);
        super::write(&mut *self.room, at, &[first]);
        self.push(to, 1 + len)
    }

    // The reply in the making as a positive frame, or 0x14 where that exceeds a frame.
    #[tactic(auto, using(crate::proofs::Laws::confirms))]
    pub fn confirm(&mut self, asker: Asker, len: usize) -> Result<(), Refusal>
        ensures heads { self.new.heads.ghost_name ≡ self.old.heads.ghost_name }
        ensures room { self.new.room.ghost_name ≡ self.old.room.ghost_name }
        ensures step { step_in result self.new ≡ confirmed max_frame (mode_of asker.functional) (queue_in self.old) asker.to asker.sid (draft_of self.old.count len self.old.room.now) }
    {
        if fits(self.count, &*self.room, len) {
            return self.send(asker.to, uds::frame::response(asker.sid), len);
        }
        self.refuse(asker, Nrc::RESPONSE_TOO_LONG)
    }

    // What a service says, carried out.
    #[tactic(auto, unfolding(model::specs::Queue::answered))]
    pub fn answer(&mut self, asker: Asker, reply: Reply) -> Result<(), Refusal>
        ensures heads { self.new.heads.ghost_name ≡ self.old.heads.ghost_name }
        ensures room { self.new.room.ghost_name ≡ self.old.room.ghost_name }
        ensures step { step_in result self.new ≡ answered max_frame (mode_of asker.functional) (queue_in self.old) asker.to asker.sid (reply_of reply self.old.count self.old.room.now) }
    {
        match reply {
            Reply::Silent => Ok(()),
            Reply::Positive(len) => self.confirm(asker, len),
            Reply::Negative(code) => self.refuse(asker, code),
            Reply::Always(code) => self.negative(asker.to, asker.sid, code),
            Reply::Pends => self.negative(
                asker.to,
                asker.sid,
                Nrc::REQUEST_CORRECTLY_RECEIVED_RESPONSE_PENDING,
            ),
        }
    }
}
