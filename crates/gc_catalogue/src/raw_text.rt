//! The parameters of a procedure that isn't in the table: bytes as they are.

ghost use Rattle.std.specs.Prelude.{◌≡◌, ◌-◌, ◌≤◌, length, take, drop, replicate};
ghost use Rattle.gc_catalogue.specs.Bytes.{AreBytes};

use gc_values::filled_up;

/// The most bytes that the parameters of a procedure that isn't in the table may have: a request's line of 512 bytes with an id has at
/// least 9 before them.
pub const RAW_BYTES: usize = 503;

/// The parameters of a procedure that isn't in the table: at most 503 bytes. The unused bytes are zero. The type has no
/// model, since a `Copy` struct that holds a value with a model can't be passed by value and used again.
#[derive(Clone, Copy, Debug, PartialEq, Eq)]
pub struct RawText {
    bytes: [u8; RAW_BYTES],
    len: u16,
    pub ghost few: { len ≤ 503 },
    pub ghost long: { length bytes ≡ 503 },
    pub ghost zeros: { drop len bytes ≡ replicate (503 - len) 0 },
    // Numbers in a list needn't be bytes.
    pub ghost are_bytes: { AreBytes (take len bytes) },
}

impl RawText {
    ghost use Rattle.gc_catalogue.specs.RawTexts.{raw_bytes};

    // Makes the text of these bytes, at most 503, with zeros in its unused places.
    pub(crate) fn new(bytes: &[u8]) -> RawText
        requires { length bytes.now ≤ 503 }
        ensures { raw_bytes result ≡ bytes.now }
    {
        RawText {
            bytes: filled_up(bytes),
            len: bytes.len() as u16,
        }
    }

    /// The bytes, without the unused ones.
    #[inline]
    pub fn as_bytes(&self) -> &[u8]
        ensures bytes { result.now ≡ raw_bytes self.now }
        ensures few { length (raw_bytes self.now) ≤ 503 }
    {
        &self.bytes[..self.len as usize]
    }
}
