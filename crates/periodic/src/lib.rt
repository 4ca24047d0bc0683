// The subscription table of service 2A: which identifier is sent to which client, how often, and when next. The table is lent as
// words, and how many entries stand goes beside it by value. Every promise is an equation to the definition in the crate `model`.
#![tactic(auto)]

ghost use Rattle.std.specs.Prelude.{◌≡◌, ℕ, ◌<◌, List};
ghost use Rattle.model.specs.Tests.{place};
ghost use Rattle.model.specs.Numbers.{max_periodic};
ghost use Rattle.model.specs.Config.{table_within};
ghost use Rattle.model.specs.State.{subscription_valid, fresh_periodic};
ghost use Rattle.model.specs.Service2A.{is_subscription};
ghost use Rattle.uds.specs.Table.{place_of};
ghost use Rattle.periodic.specs.View.{cell_at, entry_at, entry_of, table_of, due_at, Puts, Registers, Cancels, Advances};

use uds::clock::{Duration, Instant};

// Sixteen entries of four words: identifier, client, interval, next. They stay words, since it is fixed memory that C lends.
pub type Subscriptions = [u64; 64];

pub const MAX_PERIODIC: u8 = 16;

#[derive(Clone, Copy, PartialEq, Eq)]
pub struct PeriodicEntry {
    pub identifier: u16,
    pub client: u32,
    pub interval: Duration,
    pub next: Instant,
}

// How many entries stand; the words that hold them are lent beside it.
#[derive(Clone, Copy, PartialEq, Eq)]
pub struct PeriodicState {
    pub count: u8,
}

impl PeriodicState {
    // No subscription stands, whatever the words hold.
    pub fn new() -> PeriodicState
        ensures { (w : List ℕ) → table_of result.count w ≡ fresh_periodic }
    {
        PeriodicState { count: 0 }
    }
}

// A word of entry `i`: 0 past the end. A place past the last number is past the end too, and is not wrapped to an earlier one.
fn cell(words: &[u64], i: usize, field: usize) -> u64
    ensures { result ≡ cell_at words.now i field }
{
    let at = i.saturating_mul(4).saturating_add(field);
    words.get(at).copied().unwrap_or(0)
}

// Entry `i`, of which an identifier is 16 bits and a client 32: all 0 past the end.
pub fn entry_at(subs: &Subscriptions, i: usize) -> PeriodicEntry
    ensures { entry_of result ≡ entry_at subs.now i }
{
    let identifier = cell(subs, i, 0) % 0x1_0000;
    let client = cell(subs, i, 1) % 0x1_0000_0000;
    PeriodicEntry {
        identifier: identifier as u16,
        client: client as u32,
        interval: Duration(cell(subs, i, 2)),
        next: Instant(cell(subs, i, 3)),
    }
}

// An entry put in its place.
fn put(subs: &mut Subscriptions, i: usize, e: PeriodicEntry)
    requires { i < 16 }
    ensures { Puts subs.old i (entry_of e) subs.new }
{
    let at = 4 * i;
    subs[at] = u64::from(e.identifier);
    subs[at + 1] = u64::from(e.client);
    subs[at + 2] = e.interval.0;
    subs[at + 3] = e.next.0;
}

// Entry `i` is the client's subscription to the identifier.
fn is_subscription(subs: &Subscriptions, i: usize, identifier: u16, client: u32) -> bool
    ensures { result ≡ is_subscription identifier client (entry_at subs.now i) }
{
    let e = entry_at(subs, i);
    e.identifier == identifier && e.client == client
}

// The first of the entries that stand that is the client's subscription to the identifier.
pub fn find(subs: &Subscriptions, count: u8, identifier: u16, client: u32) -> Option<usize>
    ensures { place_of result ≡ place (is_subscription identifier client) (table_of count subs.now) }
{
    for i in 0..usize::from(count) {
        if is_subscription(subs, i, identifier, client) {
            return Some(i);
        }
    }
    None
}

// The same identifier and client renews the first such entry; another is added at the end. How many entries stand now: none is said where
// there is no room for another, and the table is as it was.
pub fn register(
    subs: &mut Subscriptions,
    count: u8,
    identifier: u16,
    client: u32,
    interval: Duration,
    t: Instant,
) -> Option<u8>
    ensures { Registers subs.old count identifier client interval.0 t.0 result subs.new }
{
    if MAX_PERIODIC < count {
        return None;
    }
    let e = PeriodicEntry {
        identifier,
        client,
        interval,
        next: t.plus(interval),
    };
    if let Some(i) = find(subs, count, identifier, client) {
        put(subs, i, e);
        return Some(count);
    }
    if count == MAX_PERIODIC {
        return None;
    }
    put(subs, usize::from(count), e);
    Some(count + 1)
}

// The client's subscriptions to the identifier are taken out; the others move up in their order.
pub fn cancel(subs: &mut Subscriptions, count: u8, identifier: u16, client: u32) -> u8
    ensures { Cancels subs.old count identifier client result subs.new }
{
    if MAX_PERIODIC < count {
        return count;
    }
    let mut kept: u8 = 0;
    for i in 0..usize::from(count) {
        if !is_subscription(subs, i, identifier, client) {
            let e = entry_at(subs, i);
            put(subs, usize::from(kept), e);
            kept += 1;
        }
    }
    kept
}

// Entry `i` is one that stands, and its moment has come.
pub fn due(subs: &Subscriptions, count: u8, i: usize, t: Instant) -> bool
    ensures { result ≡ due_at count subs.now i t.0 }
{
    i < usize::from(count) && !t.is_before(entry_at(subs, i).next)
}

// Entry `i`, if it stands, is next due its own interval from now.
pub fn advance(subs: &mut Subscriptions, count: u8, i: usize, t: Instant)
    ensures { Advances subs.old count i t.0 subs.new }
{
    if MAX_PERIODIC < count || usize::from(count) <= i {
        return;
    }
    let mut e = entry_at(subs, i);
    e.next = t.plus(e.interval);
    put(subs, i, e);
}

// The interval is a span, and the moment one that a state may hold.
fn entry_valid(e: PeriodicEntry) -> bool
    ensures { result ≡ subscription_valid (entry_of e) }
{
    e.interval.within() && e.next.is_valid()
}

// At most sixteen entries stand, and each keeps the numbers.
pub fn subscriptions_valid(subs: &Subscriptions, count: u8) -> bool
    ensures { result ≡ table_within max_periodic subscription_valid (table_of count subs.now) }
{
    count <= MAX_PERIODIC && (0..usize::from(count)).all(|i| entry_valid(entry_at(subs, i)))
}
