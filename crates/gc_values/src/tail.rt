//! The end of a text, which grows at its front: numbers are written from their last digit to their first. The digits
//! are made in 64 bits, because a division of 128 bits is slow.

ghost use Rattle.std.specs.Prelude.{◌≡◌, ◌+◌, ◌^◌, ◌/◌, ◌<◌, ◌≤◌, ◌++◌, ◌∷◌, [], length};
ghost use Rattle.gc_values.specs.Written.{whole_text, last_digits};

use std::marker::Model;

/// Room for each written number: a minus, at most 14 digits before the point, a point, and at most 24 digits after it.
const ROOM: usize = 40;

/// The end of a text of at most 40 bytes: it is at the end of `bytes`, from `start` on.
#[derive(Drop)]
pub struct Tail {
    bytes: [u8; ROOM],
    start: usize,
}

impl Model for Tail {
    ghost use Rattle.std.specs.Prelude.{◌≡◌, ◌≤◌, drop, length, List, ℕ};

    ghost Value = { List ℕ };

    ghost view = { λ t. drop t.start t.bytes };

    ghost invariant = { λ t. (t.start ≤ 40) × (length t.bytes ≡ 40) };
}

impl Tail {
    /// A tail without any bytes.
    #[inline]
    pub fn new() -> Tail
        ensures { result ≡ [] }
    {
        Tail {
            bytes: [0; ROOM],
            start: ROOM,
        }
    }

    /// Puts a byte in front.
    #[inline]
    pub fn put(&mut self, byte: u8)
        requires { length self.old < 40 }
        ensures { self.new ≡ byte ∷ self.old }
    {
        self.start -= 1;
        self.bytes[self.start] = byte;
    }

    /// Puts the last `count` digits of a number in front, zeros first where it has fewer, and returns `n / 10^count`, rounded down.
    #[inline]
    pub fn put_last(&mut self, n: u64, count: u8) -> u64
        requires { length self.old + count ≤ 40 }
        ensures digits { self.new ≡ last_digits count n ++ self.old }
        ensures rest { result ≡ n / 10 ^ count }
    {
        let mut rest = n;
        let mut done = 0;
        while done < count {
            self.put(b'0' + (rest % 10) as u8);
            rest /= 10;
            done += 1;
        }
        rest
    }

    /// Puts a whole number of at most 14 digits in front, without leading zeros; 0 is one zero.
    #[inline]
    pub fn put_whole(&mut self, n: u64)
        requires room { length self.old + 14 ≤ 40 }
        requires small { n < 10 ^ 14 }
        ensures { self.new ≡ whole_text n ++ self.old }
    {
        if n == 0 {
            self.put(b'0');
            return;
        }
        let mut rest = n;
        while rest > 0 {
            self.put(b'0' + (rest % 10) as u8);
            rest /= 10;
        }
    }

    /// Puts a number of at most `count` digits in front as `count` digits, zeros first. The number may have more than 64 bits.
    pub fn put_fraction(&mut self, n: u128, count: u8)
        requires room { length self.old + count ≤ 40 }
        requires few { count ≤ 24 }
        requires small { n < 10 ^ count }
        ensures { self.new ≡ last_digits count n ++ self.old }
    {
        // 10^12: 24 digits are two times twelve, and 64 bits hold twelve.
        const HALF: u128 = 1_000_000_000_000;
        if count <= 12 {
            self.put_last(n as u64, count);
            return;
        }
        let front = n / HALF;
        self.put_last((n - front * HALF) as u64, 12);
        self.put_last(front as u64, count - 12);
    }

    /// The bytes put so far, in the order of the text.
    #[inline]
    pub fn as_bytes(&self) -> &[u8]
        ensures value { result.now ≡ self.now }
        ensures few { length self.now ≤ 40 }
    {
        &self.bytes[self.start..]
    }
}
