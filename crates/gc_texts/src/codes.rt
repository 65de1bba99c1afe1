//! Lists of return codes in a station's text: those that are accepted of an answer beside 0, those by which the instrument says that it is
//! busy, and those after which a chain is repeated.

ghost use Rattle.std.specs.Prelude.{◌≡◌, ◌==◌, ◌<◌, slice_set};
ghost use Rattle.std.specs.List.{list_any};
ghost use Rattle.gc_texts.specs.LineForms.{IsReadAs};
ghost use Rattle.gc_texts.specs.Codes.{IsCodeList, IsCode, lists_code, no_codes};

use crate::cuts::cut_at;
use crate::procedure::u16_of;

/// The most return codes that a line of a station's text may list.
pub const CODES_MAX: usize = 16;

/// At most 16 return codes, each from 1 to 65535, that a line of a station's text lists.
#[derive(Clone, Copy)]
pub struct Codes {
    /// The codes, in the order of their line, and 0 in the places after them.
    pub codes: [u16; CODES_MAX],
}

impl Codes {
    /// The empty list of codes.
    pub fn none() -> Codes
        ensures { result ≡ no_codes }
    {
        Codes {
            codes: [0; CODES_MAX],
        }
    }

    // Whether one of the 16 places holds this number, which may be the 0 that fills a place without a code.
    fn is_in_a_place(&self, code: u16) -> bool
        ensures { result ≡ list_any (λ c. c == code) self.now.codes }
    {
        self.codes.iter().any(|c| *c == code)
    }

    /// Whether this return code is among the codes; 0, which fills the places after them, never is.
    pub fn has(&self, code: u16) -> bool
        ensures { result ≡ lists_code self.now code }
    {
        code != 0 && self.is_in_a_place(code)
    }

    // These codes, with `code` at this place.
    pub(crate) fn with_code_at(self, place: usize, code: u16) -> Codes
        requires { place < 16 }
        ensures { result.codes ≡ slice_set self.codes place code }
    {
        let mut codes = self.codes;
        codes[place] = code;
        Codes { codes }
    }
}

// Reads a return code, from 1 to 65535. `None`: the word is no number, or the number lies outside.
pub(crate) fn read_code(word: &[u8]) -> Option<u16>
    ensures { IsReadAs (IsCode word.now) result }
{
    let code = u16_of(word)?;
    if code == 0 {
        return None;
    }
    Some(code)
}

/// Reads return codes with one space between two. `None`: a word is no return code, or there are more than 16.
pub(crate) fn read_code_list(text: &[u8]) -> Option<Codes>
    ensures { IsReadAs (IsCodeList text.now) result }
{
    let mut codes = Codes::none();
    let mut count = 0;
    let mut left = Some(text);
    while let Some(text) = left {
        let (word, rest) = cut_at(b' ', text);
        let code = read_code(word)?;
        if count == CODES_MAX {
            return None;
        }
        codes = codes.with_code_at(count, code);
        count += 1;
        left = rest;
    }
    Some(codes)
}
