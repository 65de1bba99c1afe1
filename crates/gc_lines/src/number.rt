//! The numbers of a line: read from one to five digits, written without leading zeros.

ghost use Rattle.std.specs.Prelude.{◌≡◌, ◌+◌, ◌++◌, ◌≤◌, length};
ghost use Rattle.std.specs.Fmt.{decimal};
ghost use Rattle.std.specs.Str.Parse.{digits_value, AllDigits};
ghost use Rattle.arrayvec.specs.ArrayVec.{array_vec_len};
ghost use Rattle.gc_lines.specs.Headers.{GivesSame};
ghost use Rattle.gc_lines.specs.Readers.{digits_len, number_at};

use crate::fault::LineFault;
use crate::line::append;
use arrayvec::ArrayVec;

// How many digits are at the front of the bytes.
#[inline]
pub(crate) fn count_digits(bytes: &[u8]) -> usize
    ensures run { result ≡ digits_len bytes.now }
    ensures within { result ≤ length bytes.now }
{
    bytes.iter().take_while(|b| b.is_ascii_digit()).count()
}

// The number that the whole run of digits at the front writes, and the bytes after the run. Where the run isn't one to five
// digits, or its number is above 65535, `fault` is returned, which names the number's field.
#[inline(always)]
pub(crate) fn number_of(bytes: &[u8], fault: LineFault) -> Result<(u16, &[u8]), LineFault>
    ensures { GivesSame (λ x. (x.0, x.1.now)) result (number_at fault bytes.now) }
{
    let mut value = 0u32;
    let mut len = 0;
    while len < bytes.len() && bytes[len].is_ascii_digit() {
        if len == 5 {
            return Err(fault);
        }
        value = value * 10 + u32::from(bytes[len] - b'0');
        len += 1;
    }
    if len == 0 || value > 65535 {
        return Err(fault);
    }
    Ok((value as u16, &bytes[len..]))
}

// Appends a number without leading zeros, at most 5 bytes.
#[inline]
pub(crate) fn push_number<const N: usize>(to: &mut ArrayVec<u8, N>, n: u16)
    requires { array_vec_len to.old + 5 ≤ N }
    ensures items { to.new.items ≡ to.old.items ++ decimal n }
    ensures len { array_vec_len to.new ≤ array_vec_len to.old + 5 }
{
    if n < 10 {
        to.push(b'0' + n as u8);
    } else {
        push_digits(to, n);
    }
}

// As `push_number`, without its short way for a number of one digit.
fn push_digits<const N: usize>(to: &mut ArrayVec<u8, N>, n: u16)
    requires { array_vec_len to.old + 5 ≤ N }
    ensures items { to.new.items ≡ to.old.items ++ decimal n }
    ensures len { array_vec_len to.new ≤ array_vec_len to.old + 5 }
{
    let mut digits = [b'0'; 5];
    let mut at = 4;
    let mut left = n;
    while left >= 10 {
        digits[at] = b'0' + (left % 10) as u8;
        left /= 10;
        at -= 1;
    }
    digits[at] = b'0' + left as u8;
    append(to, &digits[at..]);
}
