//! Bytes at the front of an array, and zeros after them.

ghost use Rattle.std.specs.Prelude.{◌≡◌, ◌≤◌, ◌-◌, ◌++◌, length, replicate};

/// The bytes, at most `N`, followed by as many zeros as make them `N` bytes.
pub fn filled_up<const N: usize>(bytes: &[u8]) -> [u8; N]
    requires { length bytes.now ≤ N }
    ensures { result ≡ bytes.now ++ replicate (N - length bytes.now) 0 }
{
    let mut all = [0; N];
    all[..bytes.len()].copy_from_slice(bytes);
    all
}
