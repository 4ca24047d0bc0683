// The queue for callers in Rust or C, so that push and drain can be run and measured beside the same in Rust. A slice passes as its
// first byte and its length.
#![tactic(auto)]

ghost use Rattle.std.specs.Prelude.{◌≡◌};
ghost use Rattle.model.specs.Numbers.{max_frame};
ghost use Rattle.model.specs.Queue.{refused, confirmed, drained};
ghost use Rattle.uds.specs.Result.{result_of};
ghost use Rattle.queue.specs.View.{queue_of, mode_of, drain_of};
ghost use Rattle.queue_bench.specs.View.{step_of};

use queue::drain::Drained;
use queue::reply::{Asker, Outbox};
use queue::{Heads, Room};
use uds::result::{Refusal, number};

// The result, and how many frames wait then. It goes to C, so it holds a number and no Result.
#[repr(C)]
#[derive(Clone, Copy)]
pub struct Pushed {
    pub result: u8,
    pub count: u8,
}

impl Pushed {
    // What an outbox answered, and how many frames wait in it then.
    fn of(done: Result<(), Refusal>, count: u8) -> Pushed
        ensures { (result.result ≡ result_of done) × (result.count ≡ count) }
    {
        Pushed {
            result: number(done),
            count,
        }
    }
}

// A positive reply, made and queued as a service does it: the payload is put where it will wait, then it is said and answered.
#[tactic(auto, using(crate::proofs::Made::makes))]
#[unsafe(no_mangle)]
pub extern "C" fn bench_confirm(
    count: u8,
    heads: &mut Heads,
    room: &mut Room,
    functional: bool,
    to: u32,
    sid: u8,
    payload: &[u8],
) -> Pushed
    ensures { step_of result heads.new room.new ≡ confirmed max_frame (mode_of functional) (queue_of count heads.old room.old) to sid payload.now }
{
    let drafted = queue::draft::extend(room, count, 0, payload);
    let reply = queue::draft::said(drafted);
    let asker = Asker {
        functional,
        to,
        sid,
    };
    let mut outbox = Outbox { count, heads, room };
    let done = outbox.answer(asker, reply);
    Pushed::of(done, outbox.count)
}

// A negative frame under the rule of functional requests.
#[unsafe(no_mangle)]
pub extern "C" fn bench_refuse(
    count: u8,
    heads: &mut Heads,
    room: &mut Room,
    functional: bool,
    to: u32,
    sid: u8,
    code: u8,
) -> Pushed
    ensures { step_of result heads.new room.new ≡ refused (mode_of functional) (queue_of count heads.old room.old) to sid code }
{
    let asker = Asker {
        functional,
        to,
        sid,
    };
    let mut outbox = Outbox { count, heads, room };
    let done = outbox.refuse(asker, code);
    Pushed::of(done, outbox.count)
}

// The waiting frames as records in the lent buffer.
#[unsafe(no_mangle)]
pub extern "C" fn bench_drain(count: u8, heads: &Heads, room: &Room, out: &mut [u8]) -> Drained
    ensures { drain_of result heads.now room.now out.new ≡ drained max_frame (queue_of count heads.now room.now) out.old }
{
    queue::drain::drain(count, heads, room, out)
}
