// A moment in time and a span of time are separate things: a moment plus a span, and a moment minus a moment, are all the arithmetic
// that there is on them. Both count milliseconds.
ghost use Rattle.std.specs.Prelude.{◌≡◌, ◌-◌, nat_le, nat_lt};
ghost use Rattle.model.specs.Numbers.{max_span};
ghost use Rattle.model.specs.State.{moment_valid};
ghost use Rattle.uds.specs.Clock.{later, larger};

// A moment: milliseconds since the clock's zero.
#[repr(C)]
#[derive(Clone, Copy, PartialEq, Eq, PartialOrd, Ord)]
pub struct Instant(pub u64);

// A span: milliseconds between two moments.
#[repr(C)]
#[derive(Clone, Copy, PartialEq, Eq, PartialOrd, Ord)]
pub struct Duration(pub u64);

impl Instant {
    pub const ZERO: Instant = Instant(0);

    // The last moment that there is.
    pub const LAST: u64 = 0xFFFF_FFFF_FFFF_FFFF;

    // The last moment that a call takes: 2^48 milliseconds.
    pub const MAX_TIME: u64 = 0x1_0000_0000_0000;

    // The last moment that a state may hold: a span after the last one that a call takes.
    pub const MAX_MOMENT: u64 = 0x1_0001_0000_0000;

    // A span later. There is no moment past the last one: a sum that would pass it stays there.
    pub fn plus(self, span: Duration) -> Instant
        ensures { result.0 ≡ later self.0 span.0 }
    {
        Instant(self.0.saturating_add(span.0))
    }

    // The span since an earlier moment: none where that moment is later, as after a clock that went back.
    pub fn since(self, earlier: Instant) -> Duration
        ensures { result.0 ≡ self.0 - earlier.0 }
    {
        Duration(self.0.saturating_sub(earlier.0))
    }

    pub fn is_before(self, other: Instant) -> bool
        ensures { result ≡ nat_lt self.0 other.0 }
    {
        self < other
    }

    // A state may hold it.
    pub fn is_valid(self) -> bool
        ensures { result ≡ moment_valid self.0 }
    {
        self.0 <= Self::MAX_MOMENT
    }
}

impl Duration {
    pub const ZERO: Duration = Duration(0);

    // A configured span, and an interval that a state may hold, is below 2^32 milliseconds.
    pub const MAX_SPAN: u64 = 0x1_0000_0000;

    pub fn exceeds(self, other: Duration) -> bool
        ensures { result ≡ nat_lt other.0 self.0 }
    {
        other < self
    }

    pub fn larger(self, other: Duration) -> Duration
        ensures { result.0 ≡ larger self.0 other.0 }
    {
        self.max(other)
    }

    pub fn within(self) -> bool
        ensures { result ≡ nat_lt self.0 max_span }
    {
        self.0 < Self::MAX_SPAN
    }
}
