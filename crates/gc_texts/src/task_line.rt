//! Reads one line of a station's text.

ghost use Rattle.std.specs.Prelude.{ℕ, List, IfSome, IfNone};
ghost use Rattle.gc_texts.specs.LineForms.{IsReadAs};
ghost use Rattle.gc_texts.specs.TaskLines.{AreRequestAndItems, IsDeadlineLine, IsDescribingLine, IsEveryLine, IsExpectLine, IsNameLine, IsNearLine, IsUnwatchedLine, SetsAccepted, SetsBusy, SetsRetry, SetsAgree, SetsClock, IsTaskLine};
ghost use Rattle.gc_texts.specs.declared.expectation.Expectation.{Expectation};
ghost use Rattle.gc_texts.specs.declared.wish.Wish.{Wish};
ghost use Rattle.gc_texts.specs.declared.wording.Wording.{Wording};

use crate::agree::{Agree, read_agree};
use crate::codes::{Codes, read_code_list};
use crate::cuts::{after_prefix, before, behind, cut_at, is_word};
use crate::description::{Description, read_description};
use crate::expectation::Expectation;
use crate::item::{ends_in_space, items_trouble};
use crate::name::{Name, is_name};
use crate::near::{Near, read_near};
use crate::procedure::{number_of, target_of};
use crate::retry::{Retry, read_retry_rule};
use crate::stamp::FIRST_MOMENT;
use crate::wish::{Wish, read_wish, read_worded};
use crate::wording::Wording;
use gc_catalogue::{Asked, Call};

// The greatest deadline of a line, in milliseconds: a day.
const DEADLINE_MAX: u64 = 86400000;

// The greatest number of a line `every N cycles`.
const EVERY_MAX: u64 = 65535;

// What a line of a station's text says.
#[derive(Drop)]
pub(crate) enum TaskLine {
    // A command, for the cycle or the setup, and how the line says what to ask for. `Some`: what is expected of its answer.
    Command(Wish, Wording, Option<Expectation>),
    // The deadline of the commands after it, in milliseconds.
    Deadline(u64),
    // The commands after it are chained.
    Chained,
    // The commands after it aren't chained.
    Unchained,
    // The name of a target.
    Naming(Name),
    // Where a target is.
    Locating(Near),
    // A target whose commands aren't watched.
    Unwatching(u32),
    // What a procedure is that isn't in the table.
    Describing(Description),
    // The return codes that are accepted of the commands after it.
    Accepting(Codes),
    // The return codes by which the instrument says that it is busy, of the commands after it.
    Busy(Codes),
    // How often the chains after it are repeated, and after what.
    Retrying(Retry),
    // How far apart the answers of the chains after it may be, each of which is sent twice. `None`: each is sent once.
    Agreeing(Option<Agree>),
    // The commands after it are setup.
    AtStart,
    // The commands after it are those of each cycle.
    EachCycle,
    // The commands after it are those of every so many cycles, from the first on.
    Every(u64),
}

// Reads `deadline MS`: from 1 millisecond to a day. `None`: the line has no such form, or the number lies outside.
fn read_deadline(line: &[u8]) -> Option<u64>
    ensures { IsReadAs (IsDeadlineLine line.now) result }
{
    let digits = after_prefix(b"deadline ", line)?;
    let deadline = number_of(digits, DEADLINE_MAX)?;
    if deadline == 0 {
        return None;
    }
    Some(deadline)
}

// Reads `every N cycles`: from 1 cycle to 65535. `None`: the line has no such form, or the number lies outside.
fn read_every(line: &[u8]) -> Option<u64>
    ensures { IsReadAs (IsEveryLine line.now) result }
{
    let rest = after_prefix(b"every ", line)?;
    let (digits, word) = cut_at(b' ', rest);
    let word = word?;
    if !is_word(b"cycles", word) {
        return None;
    }
    let every = number_of(digits, EVERY_MAX)?;
    if every == 0 {
        return None;
    }
    Some(every)
}

// Reads `name T TEXT`: a target and its name. `None`: the line has no such form, the target's number is above 4294967295, or TEXT is
// no name (`is_name`).
fn read_naming(line: &[u8]) -> Option<Name>
    ensures { IsReadAs (IsNameLine line.now) result }
{
    let rest = after_prefix(b"name ", line)?;
    let (target, text) = cut_at(b' ', rest);
    let text = text?;
    let target = target_of(target)?;
    if !is_name(text) {
        return None;
    }
    Some(Name::new(target, text))
}

// Reads `near T HZ V TOLERANCE`: where a target is. `None`: the line has no such form, or a number lies outside its range.
fn read_locating(line: &[u8]) -> Option<Near>
    ensures { IsReadAs (IsNearLine line.now) result }
{
    let rest = after_prefix(b"near ", line)?;
    read_near(rest)
}

// Reads `unwatched T`: a target whose commands aren't watched. `None`: the line has no such form, or the number is above 4294967295.
fn read_unwatching(line: &[u8]) -> Option<u32>
    ensures { IsReadAs (IsUnwatchedLine line.now) result }
{
    let rest = after_prefix(b"unwatched ", line)?;
    target_of(rest)
}

// Reads `procedure RPC NAME KIND .. -> COLUMN KIND ..`: what a procedure is that isn't in the table. `None`: the line has no such form, or
// the table has the procedure (`read_description`).
fn read_describing(line: &[u8]) -> Option<Description>
    ensures { IsReadAs (IsDescribingLine line.now) result }
{
    let rest = after_prefix(b"procedure ", line)?;
    read_description(rest)
}

// Reads `accept C C ..`: the return codes that are accepted beside 0; no code where the line is `accept` alone. `None`: the
// line has no such form, a word isn't a code from 1 to 65535, or there are more than 16.
fn read_accepting(line: &[u8]) -> Option<Codes>
    ensures { IsReadAs (SetsAccepted line.now) result }
{
    if is_word(b"accept", line) {
        return Some(Codes::none());
    }
    let rest = after_prefix(b"accept ", line)?;
    read_code_list(rest)
}

// Reads `busy C C ..`: the return codes by which the instrument says that it is busy; no code where the line is `busy` alone. `None`:
// the line has no such form, a word isn't a code from 1 to 65535, or there are more than 16.
fn read_busy(line: &[u8]) -> Option<Codes>
    ensures { IsReadAs (SetsBusy line.now) result }
{
    if is_word(b"busy", line) {
        return Some(Codes::none());
    }
    let rest = after_prefix(b"busy ", line)?;
    read_code_list(rest)
}

// Reads `retry N WORD WORD ..`, which says how often chains are repeated, and after what (`read_retry_rule`); or `retry 0`, which says
// that they aren't repeated. `None`: the line has neither form, or more than 16 codes.
fn read_retrying(line: &[u8]) -> Option<Retry>
    ensures { IsReadAs (SetsRetry line.now) result }
{
    if is_word(b"retry 0", line) {
        return Some(Retry::none());
    }
    let rest = after_prefix(b"retry ", line)?;
    read_retry_rule(rest)
}

// Reads `agree HZ V D`, which says that chains are sent twice, and how far apart their answers may be (`read_agree`); or `agree` alone,
// which says that they are sent once. `None`: the line has neither form, or a number lies outside its range.
fn read_agreeing(line: &[u8]) -> Option<Option<Agree>>
    ensures { IsReadAs (SetsAgree line.now) result }
{
    if is_word(b"agree", line) {
        return Some(None);
    }
    let rest = after_prefix(b"agree ", line)?;
    let agree = read_agree(rest)?;
    Some(Some(agree))
}

// Reads `T 5007 now`: a command that sets the clock of target T to the moment at which it is sent. In place of that moment the
// call of the wish has the first moment of 1970. `None`: the line has no such form, or the target's number is above 4294967295.
fn read_clock_setting(line: &[u8]) -> Option<Wish>
    ensures { IsReadAs (SetsClock line.now) result }
{
    if !is_word(b"5007 now", behind(b' ', line)) {
        return None;
    }
    let target = target_of(before(b' ', line))?;
    Some(Wish {
        target,
        call: Asked::Table(Call::SetDate(FIRST_MOMENT)),
    })
}

// Cuts `REQUEST = ITEMS` at its first `=`: returns the request and the items. `None`: it has no `=`, no space behind the first, or none or
// more than one before it.
pub(crate) fn cut_items(text: &[u8]) -> Option<(&[u8], &[u8])>
    ensures found { IfSome result (λ r. AreRequestAndItems text.now r.0.now r.1.now) }
    ensures none { IfNone result ((request items : List ℕ) → AreRequestAndItems text.now request items → ⊥) }
{
    let (front, rest) = cut_at(b'=', text);
    let items = after_prefix(b" ", rest?)?;
    let (last, request) = front.split_last()?;
    if *last != b' ' {
        return None;
    }
    if ends_in_space(request) {
        return None;
    }
    Some((request, items))
}

// Reads `T expect REQUEST = ITEMS`: a command, how the line says what to ask for, and what is expected of the values of its answer. `None`:
// the line has no such form, the command is refused (`read_worded`), or the items are (`items_trouble`).
fn read_expecting(line: &[u8]) -> Option<(Wish, Wording, Expectation)>
    ensures { IsReadAs (λ (r : Wish × Wording × Expectation). IsExpectLine line.now r.0 r.1 r.2) result }
{
    let rest = behind(b' ', line);
    if !is_word(b"expect", before(b' ', rest)) {
        return None;
    }
    let (request, items) = cut_items(behind(b' ', rest))?;
    let (wish, wording) = read_worded(before(b' ', line), request)?;
    if items_trouble(items).is_some() {
        return None;
    }
    Some((wish, wording, Expectation::new(items)))
}

// Reads one line of a station's text. `None`: the line has none of the forms.
pub(crate) fn read_task_line(line: &[u8]) -> Option<TaskLine>
    ensures { IsReadAs (IsTaskLine line.now) result }
{
    if is_word(b"chained", line) {
        return Some(TaskLine::Chained);
    }
    if is_word(b"unchained", line) {
        return Some(TaskLine::Unchained);
    }
    if let Some(deadline) = read_deadline(line) {
        return Some(TaskLine::Deadline(deadline));
    }
    if let Some(name) = read_naming(line) {
        return Some(TaskLine::Naming(name));
    }
    if let Some(near) = read_locating(line) {
        return Some(TaskLine::Locating(near));
    }
    if let Some(target) = read_unwatching(line) {
        return Some(TaskLine::Unwatching(target));
    }
    if let Some(description) = read_describing(line) {
        return Some(TaskLine::Describing(description));
    }
    if let Some(codes) = read_accepting(line) {
        return Some(TaskLine::Accepting(codes));
    }
    if let Some(codes) = read_busy(line) {
        return Some(TaskLine::Busy(codes));
    }
    if let Some(retry) = read_retrying(line) {
        return Some(TaskLine::Retrying(retry));
    }
    if let Some(agree) = read_agreeing(line) {
        return Some(TaskLine::Agreeing(agree));
    }
    if is_word(b"at start", line) {
        return Some(TaskLine::AtStart);
    }
    if is_word(b"each cycle", line) {
        return Some(TaskLine::EachCycle);
    }
    if let Some(every) = read_every(line) {
        return Some(TaskLine::Every(every));
    }
    if let Some(wish) = read_clock_setting(line) {
        return Some(TaskLine::Command(wish, Wording::Now, None));
    }
    if let Some((wish, wording, expectation)) = read_expecting(line) {
        return Some(TaskLine::Command(wish, wording, Some(expectation)));
    }
    match read_wish(line) {
        Some((wish, wording)) => Some(TaskLine::Command(wish, wording, None)),
        None => None,
    }
}
