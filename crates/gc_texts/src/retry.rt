//! Lines `retry` of a station's text: how often a chain is repeated, and after which endings of its commands.

ghost use Rattle.std.specs.Prelude.{◌≡◌, ◌<◌, true};
ghost use Rattle.gc_texts.specs.LineForms.{IsReadAs};
ghost use Rattle.gc_texts.specs.Retries.{IsReason, NamesRule, IsRetryRule, again_with, count_with, allows_word, no_retry};

use crate::again::Again;
use crate::codes::{CODES_MAX, read_code};
use crate::cuts::{before, behind, cut_at, is_word};
use crate::judgement::Judgement;
use crate::procedure::number_of;

// The greatest number of repetitions that a line `retry` may name.
const TIMES_MAX: u64 = 9;

// How often a chain is repeated at most, and after which endings of its commands.
#[derive(Clone, Copy)]
pub(crate) struct Retry {
    // How often at most: up to 9, and 0 if the chain isn't repeated.
    pub(crate) times: u8,
    // After which endings of a command of the chain.
    pub(crate) again: Again,
}

impl Retry {
    // The rule of a chain that isn't repeated.
    pub(crate) fn none() -> Retry
        ensures { result ≡ no_retry }
    {
        Retry {
            times: 0,
            again: Again::none(),
        }
    }
}

// A word after the number of a line `retry`: a return code, or an outcome.
#[derive(Clone, Copy)]
enum Reason {
    Code(u16),
    Unreadable,
    Judged(Judgement),
    Late,
    Lost,
    Skipped,
}

// Reads a word after the number of a line `retry`. `None`: it is neither a return code nor one of the outcomes.
fn reason_of(word: &[u8]) -> Option<Reason>
    ensures { IsReadAs (IsReason word.now) result }
{
    if is_word(b"unreadable", word) {
        return Some(Reason::Unreadable);
    }
    if is_word(b"late", word) {
        return Some(Reason::Late);
    }
    if is_word(b"lost", word) {
        return Some(Reason::Lost);
    }
    if is_word(b"skipped", word) {
        return Some(Reason::Skipped);
    }
    match Judgement::named(word) {
        Some(judgement) => Some(Reason::Judged(judgement)),
        None => match read_code(word) {
            Some(code) => Some(Reason::Code(code)),
            None => None,
        },
    }
}

// Whether a line with `count` codes may have one more word: a code if these are fewer than 16, and an outcome always.
fn allows_word(count: usize, reason: Reason) -> bool
    ensures { result ≡ allows_word count reason }
{
    match reason {
        Reason::Code(_) => count < CODES_MAX,
        _ => true,
    }
}

// How many codes a line has with one more word, if it had `count` before the word.
fn count_with(count: usize, reason: Reason) -> usize
    requires { count < 4294967296 }
    ensures { result ≡ count_with count reason }
{
    match reason {
        Reason::Code(_) => count + 1,
        _ => count,
    }
}

// The rule `again`, which has `count` codes, with one more word.
fn again_with(again: Again, count: usize, reason: Reason) -> Again
    requires { allows_word count reason ≡ true }
    ensures { result ≡ again_with again count reason }
{
    match reason {
        Reason::Code(code) => Again {
            codes: again.codes.with_code_at(count, code),
            ..again
        },
        Reason::Unreadable => Again {
            unreadable: true,
            ..again
        },
        Reason::Judged(judgement) => Again {
            judged: again.judged.with(judgement),
            ..again
        },
        Reason::Late => Again {
            late: true,
            ..again
        },
        Reason::Lost => Again {
            lost: true,
            ..again
        },
        Reason::Skipped => Again {
            skipped: true,
            ..again
        },
    }
}

// Reads the words after the number of a line `retry`, with one space between two. `None`: a word is neither a code nor an outcome, or
// there are more than 16 codes.
fn read_reasons(text: &[u8]) -> Option<Again>
    ensures { IsReadAs (NamesRule text.now) result }
{
    let mut again = Again::none();
    let mut count = 0;
    let mut left = Some(text);
    while let Some(text) = left {
        let (word, rest) = cut_at(b' ', text);
        let reason = reason_of(word)?;
        if !allows_word(count, reason) {
            return None;
        }
        again = again_with(again, count, reason);
        count = count_with(count, reason);
        left = rest;
    }
    Some(again)
}

// Reads what follows `retry ` in a line, `N WORD WORD ..`: N is from 1 to 9, and there is at least one word, each a return code or an
// outcome. `None`: the text has no such form, or more than 16 codes.
pub(crate) fn read_retry_rule(text: &[u8]) -> Option<Retry>
    ensures { IsReadAs (IsRetryRule text.now) result }
{
    let times = number_of(before(b' ', text), TIMES_MAX)?;
    if times == 0 {
        return None;
    }
    let again = read_reasons(behind(b' ', text))?;
    Some(Retry {
        times: times as u8,
        again,
    })
}
