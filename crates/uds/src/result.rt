// What a call answers with: done, or the number of a refusal.
ghost use Rattle.std.specs.Prelude.{◌≡◌};
ghost use Rattle.uds.specs.Result.{number_of, result_of};

// Done. A record that goes to C holds a refusal's number or this one, since an exported function takes no enum.
pub const DONE: u8 = 0;

// Why a call is refused.
#[derive(Clone, Copy, PartialEq, Eq)]
pub enum Refusal {
    // Complete or fail without a pending request.
    NotPending = 1,

    // A frame of no bytes, or of more than a request may have.
    FrameLength = 2,

    // A frame is to be queued, and sixteen wait.
    QueueFull = 3,

    // A periodic frame would be longer than a frame that is sent.
    FrameTooLong = 4,

    // The records exceed the lent buffer.
    BufferTooShort = 5,

    // A time that is later than a call takes.
    TimeTooLate = 6,

    // The configuration does not keep the numbers.
    Configuration = 7,

    // A periodic value is an error.
    ValueError = 8,

    // The state that was handed in is not valid.
    StateNotValid = 10,
}

impl From<Refusal> for u8 {
    ghost from_gives = { λ why n. n ≡ number_of why };

    fn from(why: Refusal) -> u8 {
        why as u8
    }
}

// The number of what was done: that of the refusal, or 0.
pub fn number(done: Result<(), Refusal>) -> u8
    ensures { result ≡ result_of done }
{
    match done {
        Ok(()) => DONE,
        Err(why) => u8::from(why),
    }
}
