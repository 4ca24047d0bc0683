// What all services share: the act that one may ask and what was handed in for it, a reply with nothing changed, a reply made of two parts.
#![tactic(auto)]

ghost use Rattle.std.specs.Prelude.{◌≡◌, ℕ, List, [], ◌++◌, take};
ghost use Rattle.model.specs.Values as Values;
ghost use Rattle.model.specs.Queue.{positive};
ghost use Rattle.model.specs.Reply as Rules;
ghost use Rattle.model.specs.Service as Service;
ghost use Rattle.model.specs.Service.{Seen, Served};
ghost use Rattle.queue.specs.View.{reply_of};
ghost use Rattle.service.specs.Act.{part_of, act_of, Asked, outcome_of, acted_reply};
ghost use Rattle.service.specs.Effects.{Refuses};
ghost use Rattle.service.specs.Seen.{says_of, Replies, Speaks};

use config::Config;
use queue::Room;
use queue::reply::Reply;
use state::apply::Effect;
use uds::clock::Instant;
use uds::nrc::Nrc;

// A part of the frame, by start and length: 0 and 0 when it is empty.
#[repr(C)]
#[derive(Clone, Copy)]
pub struct Part {
    pub start: usize,
    pub len: usize,
}

impl Part {
    pub const NONE: Part = Part { start: 0, len: 0 };

    pub fn of(start: usize, len: usize) -> Part
        ensures { part_of result ≡ Service.part start len }
    {
        if len == 0 {
            return Part::NONE;
        }
        Part { start, len }
    }
}

// The act that a request asks: its number is the service byte, 0 for none, and as many of the three parts as are counted are its arguments. It goes to C, so it
// says by that number whether there is one.
#[repr(C)]
#[derive(Clone, Copy)]
pub struct Act {
    pub a: Part,
    pub b: Part,
    pub c: Part,
    pub number: u8,
    pub parts: u8,
}

impl Act {
    pub fn none() -> Act
        ensures { act_of result ≡ Service.no_act }
    {
        Act {
            a: Part::NONE,
            b: Part::NONE,
            c: Part::NONE,
            number: 0,
            parts: 0,
        }
    }
}

// A request as a service sees it: of which session and level, how many subscriptions stand and frames wait, from whom, when and what; then what was
// handed in for its act, and the value table with its pool. The security record, the subscriptions and the room stand beside it, since services change them.
// What was handed in is an error byte and bytes, as C hands it.
#[derive(Clone, Copy)]
pub struct Request<'a> {
    pub config: &'a Config,
    pub session: u8,
    pub level: u8,
    pub subscriptions: u8,
    pub frames: u8,
    pub src: u32,
    pub t: Instant,
    pub payload: &'a [u8],
    pub err: u8,
    pub given: &'a [u8],
    pub values: &'a [u32],
    pub pool: &'a [u8],
}

// What a service answers that changes nothing: the reply, which stands in the free place of the room, and the act.
#[derive(Clone, Copy)]
pub struct Spoken {
    pub reply: Reply,
    pub act: Act,
}

// What a service answers that changes something.
#[derive(Clone, Copy)]
pub struct Wanted {
    pub effect: Effect,
    pub act: Act,
}

// The first bytes, as many as there are.
pub fn first(bytes: &[u8], n: usize) -> &[u8]
    ensures { result.now ≡ take n bytes.now }
{
    &bytes[..n.min(bytes.len())]
}

impl<'a> Request<'a> {
    // A payload, asked of session 1 with no level held, at the clock's zero; nothing is handed in, and there is no value table.
    pub fn of(config: &'a Config, payload: &'a [u8]) -> Request<'a>
        ensures lent { (result.config.now ≡ config.now) × (result.payload.now ≡ payload.now) }
        ensures numbers { (result.session ≡ 1) × (result.level ≡ 0) × (result.subscriptions ≡ 0) × (result.frames ≡ 0) × (result.src ≡ 0) × (result.t.0 ≡ 0) }
        ensures handed { (result.err ≡ 0) × (result.given.now ≡ []) × (result.values.now ≡ []) × (result.pool.now ≡ []) }
    {
        Request {
            config,
            session: 1,
            level: 0,
            subscriptions: 0,
            frames: 0,
            src: 0,
            t: Instant::ZERO,
            payload,
            err: 0,
            given: &[],
            values: &[],
            pool: &[],
        }
    }

    // What was handed in for the act, of which a limit of bytes count: an error byte is that error, bytes above the limit are error 0x22.
    pub fn outcome(&self, limit: usize) -> Result<(), u8>
        ensures { Values.outcome limit (record { err = self.now.err; bytes = self.now.given.now }) ≡ outcome_of result self.now.given.now }
    {
        if self.err != 0 {
            return Err(self.err);
        }
        if limit < self.given.len() {
            return Err(Nrc::CONDITIONS_NOT_CORRECT);
        }
        Ok(())
    }

    // A reply, and nothing changed.
    pub fn says(&self, reply: Reply) -> Effect
        ensures { result ≡ says_of self.now.session self.now.level self.now.subscriptions reply }
    {
        Effect {
            reply,
            session: self.session,
            level: self.level,
            subscriptions: self.subscriptions,
            clears_seed: false,
            waits: false,
        }
    }

    // Refused, and nothing changed.
    pub fn refused(&self, code: u8) -> Wanted
        ensures { Refuses self.now.session self.now.level self.now.subscriptions code result }
    {
        Wanted {
            effect: self.says(Reply::Negative(code)),
            act: Act::none(),
        }
    }
}

// An error byte is sent as the negative code; 0x78 makes the request pending. The promise is for every count and room.
pub fn refusal(code: u8) -> Reply
    ensures { (count : ℕ) (room : List ℕ) → reply_of result count room ≡ Rules.refusal code }
{
    if code == Nrc::REQUEST_CORRECTLY_RECEIVED_RESPONSE_PENDING {
        return Reply::Pends;
    }
    Reply::Negative(code)
}

// A positive reply of two parts, made where it will wait; 0x14 where it is longer than a reply in the making may be.
pub fn joined(frames: u8, head: &[u8], tail: &[u8], room: &mut Room) -> Reply
    ensures { Replies (positive (head.now ++ tail.now)) frames room.old result room.new }
{
    let Some(n) = queue::draft::extend(room, frames, 0, head) else {
        return Reply::Negative(Nrc::RESPONSE_TOO_LONG);
    };
    queue::draft::said(queue::draft::extend(room, frames, n, tail))
}

// What comes of an act, by its outcome: an error byte is sent as the negative code; else the reply of two parts, unless suppressed.
pub fn acted(
    frames: u8,
    outcome: Result<(), u8>,
    suppress: bool,
    head: &[u8],
    tail: &[u8],
    room: &mut Room,
) -> Reply
    ensures { Replies (acted_reply outcome suppress (head.now ++ tail.now)) frames room.old result room.new }
{
    if let Err(code) = outcome {
        return refusal(code);
    }
    if suppress {
        return Reply::Silent;
    }
    joined(frames, head, tail, room)
}

// A service that asks an act: refused before it, or answered by its outcome. The promise is for every such service.
pub fn answered(
    ask: Result<Act, u8>,
    frames: u8,
    outcome: Result<(), u8>,
    suppress: bool,
    head: &[u8],
    tail: &[u8],
    room: &mut Room,
) -> Spoken
    ensures { (f : Seen → Served) (later : Seen → Service.Effect) (v : Seen) → Asked f later v ask → later v ≡ Service.says v (acted_reply outcome suppress (head.now ++ tail.now)) → Speaks f v frames room.old result room.new }
{
    match ask {
        Err(why) => Spoken {
            reply: Reply::Negative(why),
            act: Act::none(),
        },
        Ok(act) => Spoken {
            reply: acted(frames, outcome, suppress, head, tail, room),
            act,
        },
    }
}
