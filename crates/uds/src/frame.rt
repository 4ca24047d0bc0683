// Frame rules: how the bytes of a frame are read and made, by masks and shifts.
ghost use Rattle.std.specs.Prelude.{◌≡◌, ◌+◌, ◌*◌, ◌∷◌, [], get_or};
ghost use Rattle.model.specs.Frame.{sid_of, payload_of, suppressed, sub_function, word, high_nibble, low_nibble, two_bytes, periodic_did, response};

const SUPPRESS_BIT: u8 = 0x80;

const SUB_FUNCTION_MASK: u8 = 0x7F;

const LOW_NIBBLE_MASK: u8 = 0x0F;

const RESPONSE_BIT: u8 = 0x40;

const PERIODIC_BASE: u16 = 0xF200;

// The first byte of a frame names the service: 0 if there is none.
pub fn sid(frame: &[u8]) -> u8
    ensures { result ≡ sid_of frame.now }
{
    byte(frame, 0)
}

// All after the first byte.
pub fn payload(frame: &[u8]) -> &[u8]
    ensures { result.now ≡ payload_of frame.now }
{
    frame.get(1..).unwrap_or(frame)
}

// The low seven bits of the first payload byte: 0 if it is absent.
pub fn sub_function(payload: &[u8]) -> u8
    ensures { result ≡ sub_function payload.now }
{
    byte(payload, 0) & SUB_FUNCTION_MASK
}

// Its bit 7.
pub fn suppressed(payload: &[u8]) -> bool
    ensures { result ≡ suppressed payload.now }
{
    byte(payload, 0) & SUPPRESS_BIT != 0
}

// The length of an address, in the high nibble of its byte.
pub fn high_nibble(b: u8) -> u8
    ensures { result ≡ high_nibble b }
{
    b >> 4
}

// The length of a size, in the low nibble of the same byte.
pub fn low_nibble(b: u8) -> u8
    ensures { result ≡ low_nibble b }
{
    b & LOW_NIBBLE_MASK
}

// The identifier that a byte of a periodic request means.
pub fn periodic_did(b: u8) -> u16
    ensures { result ≡ periodic_did b }
{
    PERIODIC_BASE | u16::from(b)
}

// The service with the response bit set.
pub fn response(sid: u8) -> u8
    ensures { result ≡ response sid }
{
    sid | RESPONSE_BIT
}

// Two bytes as an identifier, high byte first.
pub fn identifier(high: u8, low: u8) -> u16
    ensures { result ≡ high * 256 + low }
{
    u16::from_be_bytes([high, low])
}

// The identifier that stands at a place of a payload.
pub fn word(payload: &[u8], at: usize) -> u16
    ensures { result ≡ word payload.now at }
{
    if payload.len() <= at {
        return 0;
    }
    identifier(byte(payload, at), byte(payload, at + 1))
}

// A number's low 16 bits as two bytes, high byte first.
pub fn two_bytes(n: u64) -> [u8; 2]
    ensures { result ≡ two_bytes n }
{
    ((n & 0xFFFF) as u16).to_be_bytes()
}

// The byte at a place: 0 past the end.
pub fn byte(bytes: &[u8], at: usize) -> u8
    ensures { result ≡ get_or bytes.now at 0 }
{
    bytes.get(at).copied().unwrap_or(0)
}
