// Security access, as lent words: the seed that awaits its key, and for each level how many keys were refused and until when it is
// locked. Words 0 to 3 are the seed's length and level, and how many counts and locks there are; from 4 on stand the seed's bytes,
// from 36 on eight counts (level, refused keys), from 52 on eight locks (level, until). Every promise is an equation to the definition
// in the crate `model`.
#![tactic(auto)]

ghost use Rattle.std.specs.Prelude.{◌≡◌, ◌+◌, ◌≤◌, ◌<◌, min, false, [], length, IfSome};
ghost use Rattle.model.specs.Tests.{all};
ghost use Rattle.model.specs.Numbers.{max_seed};
ghost use Rattle.model.specs.State as Model;
ghost use Rattle.model.specs.Service27 as Rules;
ghost use Rattle.uds.specs.Table.{tab, place_of};
ghost use Rattle.security.specs.View.{lock_at, security_of, placed, number_at, listed, counted, locked_until, Puts, Enters, Resets, Fills, Clears, Seeds, ClearsIf};

use uds::clock::Instant;

// Words, and no struct of fields: it is memory of a fixed size that C lends.
pub type Security = [u64; 68];

const SEED_LENGTH: usize = 0;

const SEED_LEVEL: usize = 1;

const FIRST_BYTE: usize = 4;

const MAX_SEED: usize = 32;

const MAX_LEVELS: u64 = 8;

#[derive(Clone, Copy, PartialEq, Eq)]
pub struct SecurityState {
    pub words: Security,
}

impl SecurityState {
    // No seed, no count, no lock.
    pub fn new() -> SecurityState
        ensures { security_of result.words ≡ Model.fresh_security }
    {
        SecurityState { words: [0; 68] }
    }
}

// A list of levels, the counts or the locks: the word that counts its rows, and where the first row begins.
#[derive(Clone, Copy)]
struct List {
    counter: usize,
    from: usize,
}

const COUNTS: List = List {
    counter: 2,
    from: 36,
};

const LOCKS: List = List {
    counter: 3,
    from: 52,
};

impl List {
    // Where a level stands in the list. A count above eight is no list's: nothing is found under it.
    fn find(self, k: &Security, level: u8) -> Option<usize>
        requires { (self.counter < 4) × (self.from ≤ 52) }
        ensures place { place_of result ≡ placed k.now self.counter self.from level }
        ensures row { IfSome result (λ i. i < 8) }
    {
        let rows = k[self.counter];
        if MAX_LEVELS < rows {
            return None;
        }
        (0..rows as usize).find(|&i| k[self.from + 2 * i] == u64::from(level))
    }

    // The level's number in the list: 0 where it has none.
    fn number(self, k: &Security, level: u8) -> u64
        requires { (self.counter < 4) × (self.from ≤ 52) }
        ensures { result ≡ number_at k.now self.from (placed k.now self.counter self.from level) }
    {
        self.find(k, level).map_or(0, |i| k[self.from + 2 * i + 1])
    }

    // A number entered into the list, in the level's row or in a new one: false where there is no room for that. It answers a `bool`, as
    // a set's `insert` does, since whether there was room is all that there is to tell.
    fn enter(self, k: &mut Security, level: u8, number: u64) -> bool
        requires { (self.counter < 4) × (self.from ≤ 52) }
        ensures { Puts k.old self.counter self.from level number result k.new }
    {
        if let Some(i) = self.find(k, level) {
            k[self.from + 2 * i + 1] = number;
            return true;
        }
        let rows = k[self.counter];
        if MAX_LEVELS <= rows {
            return false;
        }
        let at = self.from + 2 * (rows as usize);
        k[at] = u64::from(level);
        k[at + 1] = number;
        k[self.counter] = rows + 1;
        true
    }
}

// Locked means that now is before the lock's end; a level without a lock is locked until 0, and so never.
pub fn is_locked(k: &Security, level: u8, t: Instant) -> bool
    ensures { result ≡ listed (security_of k.now).locks (Rules.locked (security_of k.now) level t.0) false }
{
    t.is_before(Instant(LOCKS.number(k, level)))
}

// How many keys of the level were refused: none where it has no count.
pub fn failed_count(k: &Security, level: u8) -> u64
    ensures { result ≡ listed (security_of k.now).failed (Rules.failed_count level (security_of k.now).failed) 0 }
{
    COUNTS.number(k, level)
}

// One more refused key of the level, if the list has room. A count goes up to 255.
pub fn increment(k: &mut Security, level: u8) -> bool
    ensures { Enters k.old (counted (security_of k.old) level) result k.new }
{
    let count = COUNTS.number(k, level).saturating_add(1).min(255);
    COUNTS.enter(k, level, count)
}

// Locked until a moment, if the list has room.
pub fn lock(k: &mut Security, level: u8, until: Instant) -> bool
    ensures { Enters k.old (locked_until (security_of k.old) level until.0) result k.new }
{
    LOCKS.enter(k, level, until.0)
}

// No refused key is counted any more; a level that has no count gets none.
pub fn reset(k: &mut Security, level: u8)
    ensures { Resets k.old level k.new }
{
    if let Some(i) = COUNTS.find(k, level) {
        k[COUNTS.from + 2 * i + 1] = 0;
    }
}

// The level is the one whose seed awaits its key, and there is a seed.
pub fn awaits(k: &Security, level: u8) -> bool
    ensures { result ≡ Rules.awaits (security_of k.now) level }
{
    k[SEED_LEVEL] == u64::from(level) && 1 <= k[SEED_LENGTH]
}

// The bytes of a seed put in their places.
fn fill(k: &mut Security, bytes: &[u8])
    requires { length bytes.now ≤ 32 }
    ensures { Fills k.old bytes.now 0 (length bytes.now) k.new }
{
    for (i, b) in bytes.iter().enumerate() {
        k[FIRST_BYTE + i] = u64::from(*b);
    }
}

// The bytes after them overwritten.
fn wipe(k: &mut Security, n: usize)
    requires { n ≤ 32 }
    ensures { Fills k.old [] n max_seed k.new }
{
    k[FIRST_BYTE + n..FIRST_BYTE + MAX_SEED].fill(0);
}

// No seed awaits its key, and no byte of it is left.
pub fn clear(k: &mut Security)
    ensures { Clears k.old k.new }
{
    wipe(k, 0);
    k[SEED_LENGTH] = 0;
    k[SEED_LEVEL] = 0;
}

// The same, where it is wanted.
pub fn settle(k: &mut Security, clears: bool)
    ensures { ClearsIf k.old clears k.new }
{
    if clears {
        clear(k);
    }
}

// A seed of at most 32 bytes that awaits its key, and nothing of an earlier one; a longer one leaves none.
pub fn seed(k: &mut Security, level: u8, bytes: &[u8])
    ensures { Seeds k.old level bytes.now k.new }
{
    let n = bytes.len();
    if MAX_SEED < n {
        clear(k);
        return;
    }
    fill(k, bytes);
    wipe(k, n);
    k[SEED_LENGTH] = n as u64;
    k[SEED_LEVEL] = u64::from(level);
}

// No lock ends later than the last moment that a state may hold.
fn locks_valid(k: &Security, n: usize) -> bool
    requires { n ≤ 8 }
    ensures { result ≡ all Model.lock_valid (tab (lock_at k.now) 0 n) }
{
    (0..n).all(|i| Instant(k[LOCKS.from + 2 * i + 1]).is_valid())
}

// Lengths and moments keep their numbers.
pub fn is_valid(k: &Security) -> bool
    ensures { result ≡ Model.security_valid (security_of k.now) }
{
    k[SEED_LENGTH] <= MAX_SEED as u64
        && k[COUNTS.counter] <= MAX_LEVELS
        && k[LOCKS.counter] <= MAX_LEVELS
        && locks_valid(k, k[LOCKS.counter] as usize)
}
