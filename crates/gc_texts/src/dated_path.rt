//! Paths with a date in them, as `north-%Y-%m.csv`: which are well-formed, and what such a path is at a moment.

ghost use Rattle.std.specs.Prelude.{◌≡◌, ◌≤◌, ◌++◌, ◌∷◌, length, IfOk, OnOk};
ghost use Rattle.std.specs.String.{string_bytes};
ghost use Rattle.gc_texts.specs.DatedPaths.{dated, has_date, is_date_letter, is_dated_path, is_letter, part_text};

use crate::stamp::{Date, date_and_hour, two_digits};
use itoa::Buffer;
use std::alloc::{AllocError, Global};

// Whether `%` and this letter stand for a part of the moment.
fn is_date_letter(letter: u8) -> bool
    ensures { result ≡ is_date_letter letter }
{
    letter == b'Y' || letter == b'm' || letter == b'd' || letter == b'H'
}

// Whether this letter may follow a `%`.
fn is_letter(letter: u8) -> bool
    ensures { result ≡ is_letter letter }
{
    is_date_letter(letter) || letter == b'%'
}

/// Whether each `%` of a path begins one of `%Y`, `%m`, `%d`, `%H` and `%%`.
pub fn is_dated_path(path: &str) -> bool
    ensures { result ≡ is_dated_path path.now }
{
    let mut left = path.as_bytes();
    while let Some((first, rest)) = left.split_first() {
        left = match rest.split_first() {
            Some((letter, behind)) if *first == b'%' => {
                if !is_letter(*letter) {
                    return false;
                }
                behind
            }
            None if *first == b'%' => return false,
            _ => rest,
        };
    }
    true
}

/// Whether a part of the moment is in a path: `%Y`, `%m`, `%d` or `%H`.
pub fn has_date(path: &str) -> bool
    ensures { result ≡ has_date path.now }
{
    let mut left = path.as_bytes();
    while let Some((first, rest)) = left.split_first() {
        left = match rest.split_first() {
            Some((letter, behind)) if *first == b'%' => {
                if is_date_letter(*letter) {
                    return true;
                }
                behind
            }
            _ => rest,
        };
    }
    false
}

// Appends what `%` and this letter stand for at this moment. `Err`: memory ran out.
fn append_part(made: &mut Vec<u8>, utc: u64, letter: u8) -> Result<(), AllocError>
    ensures { OnOk result (made.new.items ≡ made.old.items ++ part_text utc letter) }
{
    let (date, hour) = date_and_hour(utc);
    let Date { year, month, day } = date;
    match letter {
        b'Y' => made.extend_from_slice(Buffer::new().format(year).as_bytes()),
        b'm' => made.extend_from_slice(&two_digits(month)),
        b'd' => made.extend_from_slice(&two_digits(day)),
        b'H' => made.extend_from_slice(&two_digits(hour)),
        b'%' => made.extend_from_slice(b"%"),
        _ => made.extend_from_slice(&[b'%', letter]),
    }
}

// Appends the first byte of what is left of a path, or what it and the byte behind it stand for at this moment if it is a `%`. Returns
// what is left then. `Err`: memory ran out.
fn append_first<'a>(
    made: &mut Vec<u8>,
    utc: u64,
    first: u8,
    rest: &'a [u8],
) -> Result<&'a [u8], AllocError>
    ensures made { IfOk result (λ left. made.new.items ++ dated utc left.now ≡ made.old.items ++ dated utc (first ∷ rest.now)) }
    ensures short { IfOk result (λ left. length left.now ≤ length rest.now) }
{
    match rest.split_first() {
        Some((letter, behind)) if first == b'%' => {
            append_part(made, utc, *letter)?;
            Ok(behind)
        }
        _ => {
            made.extend_from_slice(&[first])?;
            Ok(rest)
        }
    }
}

/// A path as it is at the moment `utc` milliseconds after the beginning of 1970, with each part of it in the place of its `%` and letter.
/// `Err`: memory ran out.
pub fn path_at(alloc: Global, path: &str, utc: u64) -> Result<String, AllocError>
    ensures { IfOk result (λ made. string_bytes made ≡ dated utc path.now) }
{
    let mut made = Vec::new(alloc);
    let mut left = path.as_bytes();
    while let Some((first, rest)) = left.split_first() {
        left = append_first(&mut made, utc, *first, rest)?;
    }
    // Never an error: only ASCII took the place of ASCII.
    match String::from_utf8(made) {
        Ok(made) => Ok(made),
        Err(_) => Err(AllocError),
    }
}
