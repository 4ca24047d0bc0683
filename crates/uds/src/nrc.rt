// The negative response codes, the rates of periodic transmission, and what serves where no row is configured.
ghost use Rattle.std.specs.Prelude.{◌≡◌};
ghost use Rattle.model.specs.Queue.{withheld};
ghost use Rattle.model.specs.State.{functional};
ghost use Rattle.model.specs.Service2A.{rate_of};

use super::clock::Duration;

// A negative response code: any byte, since a value table, an outcome and `fail` may name any.
#[derive(Clone, Copy, PartialEq, Eq)]
pub struct Nrc(pub u8);

impl Nrc {
    pub const SERVICE_NOT_SUPPORTED: u8 = 0x11;

    pub const SUB_FUNCTION_NOT_SUPPORTED: u8 = 0x12;

    pub const INCORRECT_MESSAGE_LENGTH_OR_INVALID_FORMAT: u8 = 0x13;

    pub const RESPONSE_TOO_LONG: u8 = 0x14;

    pub const BUSY_REPEAT_REQUEST: u8 = 0x21;

    pub const CONDITIONS_NOT_CORRECT: u8 = 0x22;

    pub const REQUEST_SEQUENCE_ERROR: u8 = 0x24;

    pub const REQUEST_OUT_OF_RANGE: u8 = 0x31;

    pub const SECURITY_ACCESS_DENIED: u8 = 0x33;

    pub const INVALID_KEY: u8 = 0x35;

    pub const EXCEEDED_NUMBER_OF_ATTEMPTS: u8 = 0x36;

    pub const REQUIRED_TIME_DELAY_NOT_EXPIRED: u8 = 0x37;

    pub const UPLOAD_DOWNLOAD_NOT_ACCEPTED: u8 = 0x70;

    pub const TRANSFER_DATA_SUSPENDED: u8 = 0x71;

    pub const GENERAL_PROGRAMMING_FAILURE: u8 = 0x72;

    pub const WRONG_BLOCK_SEQUENCE_COUNTER: u8 = 0x73;

    pub const REQUEST_CORRECTLY_RECEIVED_RESPONSE_PENDING: u8 = 0x78;

    pub const SUB_FUNCTION_NOT_SUPPORTED_IN_ACTIVE_SESSION: u8 = 0x7E;

    pub const SERVICE_NOT_SUPPORTED_IN_ACTIVE_SESSION: u8 = 0x7F;

    // The codes that are withheld after a functional request: they say only that this server is not the one that was meant.
    pub const FUNCTIONALLY_SUPPRESSED: [u8; 5] = [
        Self::SERVICE_NOT_SUPPORTED,
        Self::SUB_FUNCTION_NOT_SUPPORTED,
        Self::REQUEST_OUT_OF_RANGE,
        Self::SUB_FUNCTION_NOT_SUPPORTED_IN_ACTIVE_SESSION,
        Self::SERVICE_NOT_SUPPORTED_IN_ACTIVE_SESSION,
    ];

    // Withheld after a functional request.
    pub fn withheld(self) -> bool
        ensures { result ≡ withheld functional self.0 }
    {
        Self::FUNCTIONALLY_SUPPRESSED.contains(&self.0)
    }
}

// A transmission mode of periodic reading: any byte, of which every one above 2 is fast.
#[derive(Clone, Copy, PartialEq, Eq)]
pub struct Rate(pub u8);

impl Rate {
    pub const SLOW: Duration = Duration(2000);

    pub const MEDIUM: Duration = Duration(500);

    pub const FAST: Duration = Duration(50);

    // The interval that a mode asks for: 1 is slow, 2 medium, and every other fast.
    pub fn interval(self) -> Duration
        ensures { result.0 ≡ rate_of self.0 }
    {
        match self.0 {
            1 => Self::SLOW,
            2 => Self::MEDIUM,
            _ => Self::FAST,
        }
    }
}

pub const DEFAULT_S3: Duration = Duration(5000);

pub const DEFAULT_P2: Duration = Duration(50);

pub const DEFAULT_P2_EXT: Duration = Duration(5000);

pub const DEFAULT_LOCKOUT: Duration = Duration(10_000);

pub const DEFAULT_MAX_SECURITY_ATTEMPTS: u32 = 3;
