// 22 readDataByIdentifier: each identifier in order, with what the value table says of it. The reply is made in the free place.
ghost use Rattle.std.specs.Prelude.{◌≡◌, ℕ, List, []};
ghost use Rattle.model.specs.Numbers.{max_frame};
ghost use Rattle.model.specs.Values as Model;
ghost use Rattle.model.specs.Service.{Seen};
ghost use Rattle.model.specs.Service22 as Rules;
ghost use Rattle.uds.specs.Values.{table_of};
ghost use Rattle.queue.specs.View.{draft_of, reply_of};
ghost use Rattle.service.specs.Seen.{asking, configured, in_session, valued, Speaks};
ghost use Rattle.data.specs.View22.{reading_of, Reads, Every, Answers22};

use queue::Room;
use queue::reply::Reply;
use service::{Act, Request, Spoken};
use uds::nrc::Nrc;

// Bytes appended to the reply: how many it has then, or 0x14 where it would be too long.
#[tactic(auto, unfolding(model::specs::Reply::refusal))]
fn append(frames: u8, len: usize, bytes: &[u8], room: &mut Room) -> Result<usize, u8>
    ensures { Reads frames (Rules.appended max_frame (draft_of frames len room.old) bytes.now) room.old result room.new }
{
    queue::draft::extend(room, frames, len, bytes).ok_or(Nrc::RESPONSE_TOO_LONG)
}

// The value consulted and appended.
fn read_value(request: &Request, id: u16, len: usize, room: &mut Room) -> Result<usize, u8>
    ensures { Reads request.now.frames (Rules.value_appended max_frame (Model.value max_frame (table_of request.now.values.now request.now.pool.now) id) (draft_of request.now.frames len room.old)) room.old result room.new }
{
    let value = uds::values::value(request.values, request.pool, id, 256)?;
    let end = value.start + value.len;
    append(request.frames, len, &request.pool[value.start..end], room)
}

// One identifier: readable in the session, its level held, then itself and its value.
#[tactic(auto, using(crate::proofs::Laws22::reads_one))]
fn read_one(request: &Request, h: u8, l: u8, len: usize, room: &mut Room) -> Result<usize, u8>
    ensures { Every request.now.config.now request.now.session request.now.level request.now.values.now request.now.pool.now (λ v. Reads request.now.frames (Rules.read_one v h l (draft_of request.now.frames len room.old)) room.old result room.new) }
{
    let id = uds::frame::identifier(h, l);
    let did = config::find_did(request.config, id);
    if !config::readable_in(request.config, did, request.session) {
        return Err(Nrc::REQUEST_OUT_OF_RANGE);
    }
    if u32::from(request.level) < config::did_level(request.config, did) {
        return Err(Nrc::SECURITY_ACCESS_DENIED);
    }
    let n = append(request.frames, len, &[h, l], room)?;
    read_value(request, id, n, room)
}

// Each identifier in order.
#[tactic(auto, using(crate::proofs::Laws22::no_more))]
fn read_all(request: &Request, room: &mut Room) -> Result<usize, u8>
    ensures { Every request.now.config.now request.now.session request.now.level request.now.values.now request.now.pool.now (λ v. Reads request.now.frames (Rules.read_all v request.now.payload.now []) room.old result room.new) }
{
    let mut len: usize = 0;
    for id in request.payload.chunks_exact(2) {
        len = read_one(request, id[0], id[1], len, room)?;
    }
    Ok(len)
}

// What is said of a reading.
fn said(reading: Result<usize, u8>) -> Reply
    ensures { (count : ℕ) (room : List ℕ) → reply_of result count room ≡ Rules.read_reply (reading_of reading count room) }
{
    match reading {
        Ok(len) => Reply::Positive(len),
        Err(code) => service::refusal(code),
    }
}

// Identifiers of two bytes each, at least one.
#[tactic(auto, using(crate::proofs::Laws22::reads))]
fn read(request: &Request, room: &mut Room) -> Reply
    ensures { (v : Seen) → Answers22 (asking request.now.payload.now (configured request.now.config.now (in_session request.now.session request.now.level (valued request.now.values.now request.now.pool.now v)))) request.now.frames room.old result room.new }
{
    let n = request.payload.len();
    if n < 2 || n % 2 != 0 {
        return Reply::Negative(Nrc::INCORRECT_MESSAGE_LENGTH_OR_INVALID_FORMAT);
    }
    said(read_all(request, room))
}

// It asks no act.
pub fn service22(request: &Request, room: &mut Room) -> Spoken
    ensures { (v : Seen) → Speaks Rules.service22 (asking request.now.payload.now (configured request.now.config.now (in_session request.now.session request.now.level (valued request.now.values.now request.now.pool.now v)))) request.now.frames room.old result room.new }
{
    Spoken {
        reply: read(request, room),
        act: Act::none(),
    }
}
