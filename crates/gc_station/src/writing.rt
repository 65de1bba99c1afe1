//! Writing settlements into a book, and counting them.

ghost use Rattle.std.specs.Prelude.{◌≡◌, [], ◌∷◌, length, drop, option_map, Some, unwrap_or, OnOk};
ghost use Rattle.gc_catalogue.specs.declared.asked.Asked.{Asked};
ghost use Rattle.gc_catalogue.specs.Asked.{IsAskedReading};
ghost use Rattle.gc_client.specs.Settlements.{outcome_seen, IsReadBy, AreReadBy, ReadsBy};
ghost use Rattle.gc_lines.specs.Replies.{ReplyFields, IsReply};
ghost use Rattle.gc_station.specs.Attempts.{code_in, code_of, listed_after};
ghost use Rattle.gc_station.specs.Marks.{first_mark, agrees_in, quality_in, judgement_of, judged_by, answer_as, answered_as, refused_as, end_of, is_well, ended_confirmed, unexpected_noted};
ghost use Rattle.gc_station.specs.Zeros.{IsByForm, IsZeroOf};
ghost use Rattle.gc_station.specs.Saying.{IsSaid};
ghost use Rattle.gc_station.specs.Scopes.{AreReadings, Reads};
ghost use Rattle.gc_texts.specs.Codes.{lists_code};
ghost use Rattle.gc_texts.specs.Endings.{ending_seen};
ghost use Rattle.gc_texts.specs.Nears.{is_off_target};
ghost use Rattle.gc_texts.specs.Zeroed.{as_zero};
ghost use Rattle.gc_station.specs.Records.{WritesNews};
ghost use Rattle.gc_station.specs.Writing.{KeepsBook, news_of, NotesNews};

use crate::book::Book;
use crate::described::{line_reading, line_reading_as_zero};
use crate::mark::Mark;
use crate::recorded::Recorded;
use arrayvec::ArrayVec;
use gc_catalogue::{Answer, Asked, Reading};
use gc_client::{Outcome, Settlement, WINDOW};
use gc_lines::{Line, PortFailed};
use gc_links::Moment;
use gc_texts::{
    Ending, Expected, Form, Judgement, Quality, Stamp, Twice, Wish, agrees, is_off_target, meets,
    reading_as_zero,
};

// Removes the mark of the oldest outstanding request, and returns it. `None`: that request is a null procedure, or none is
// outstanding.
fn take_mark(marks: &mut ArrayVec<Option<Mark>, WINDOW>) -> Option<Mark>
    ensures goes { marks.new.items ≡ drop 1 marks.old.items }
    ensures first { result ≡ first_mark marks.old.items }
{
    match marks.pop_at(0) {
        Some(mark) => mark,
        None => None,
    }
}

// Whether an answer, or none, may end a command as answered: in a second sending only if there is an answer of the first and it
// agrees with that; otherwise always.
fn agrees_in(expected: &Expected, answer: Option<&Answer>) -> bool
    ensures { result ≡ agrees_in expected.now.twice expected.now.first (option_map (λ a. a.now) answer.entry) }
{
    match (&expected.twice, &expected.first) {
        (Twice::Second { agree, .. }, Some(first)) => agrees(agree, first, answer),
        (Twice::Second { .. }, None) => false,
        (Twice::Once | Twice::First, _) => true,
    }
}

// The quality of an answer that would have this one if its chain were sent once: in a first sending it is unconfirmed.
fn quality_in(twice: &Twice, quality: Quality) -> Quality
    ensures { result ≡ quality_in twice.now quality }
{
    match twice {
        Twice::First => Quality::Unconfirmed,
        Twice::Once | Twice::Second { .. } => quality,
    }
}

// The judgement on an answer that was measured elsewhere than the target is (`away`), whose values are as the text expects them (`met`),
// and that, in a second sending, agrees with that of the first (`agreed`). `None`: no rule sets it aside.
fn judgement_of(away: bool, met: bool, agreed: bool) -> Option<Judgement>
    ensures { result ≡ judgement_of away met agreed }
{
    if away {
        return Some(Judgement::OffTarget);
    }
    if !met {
        return Some(Judgement::Unexpected);
    }
    if !agreed {
        return Some(Judgement::Disagree);
    }
    None
}

// The judgement on a reply, this line, with this answer, or none.
fn judged_by(
    expected: &Expected,
    away: bool,
    answer: Option<&Answer>,
    line: &Line,
) -> Option<Judgement>
    ensures { result ≡ judged_by expected.now away (option_map (λ a. a.now) answer.entry) line.now.items }
{
    let met = meets(&expected.expects, &expected.before, line);
    judgement_of(away, met, agrees_in(expected, answer))
}

// The ending of a command whose reply, this line, has this answer, or none, and this quality: answered, unless a rule of the text sets it
// aside.
fn answered_ending<'a>(
    expected: &Expected,
    quality: Quality,
    away: bool,
    answer: Option<&'a Answer>,
    line: &'a Line,
) -> Ending<'a>
    ensures { ending_seen result ≡ answered_as expected.now quality away (option_map (λ a. a.now) answer.entry) line.now.items }
{
    match judged_by(expected, away, answer, line) {
        Some(judgement) => Ending::Judged(judgement, line),
        None => Ending::Answered(quality_in(&expected.twice, quality), answer, line),
    }
}

// The ending of a command whose reply, this line, has this answer, and this quality: as `answered_ending` says. If the text doesn't say
// where the target is, the answer wasn't measured elsewhere.
fn value_ending<'a>(
    expected: &Expected,
    quality: Quality,
    answer: &'a Answer,
    line: &'a Line,
) -> Ending<'a>
    ensures { ending_seen result ≡ answered_as expected.now quality (is_off_target expected.now.near answer.now) (Some answer.now) line.now.items }
{
    let away = is_off_target(expected.near, answer);
    answered_ending(expected, quality, away, Some(answer), line)
}

// The ending of a command whose reply, this line, has this return code, which isn't 0, and would say `zero` with return code 0.
// With an accepted code: with a warning as `answered_ending` says, and with the values if they would read. With another code: answered and refused, without values.
fn refused_ending<'a>(
    expected: &Expected,
    code: u16,
    zero: &'a Reading,
    line: &'a Line,
) -> Ending<'a>
    ensures { ending_seen result ≡ refused_as (lists_code expected.now.accepted code) expected.now zero.now line.now.items }
{
    if !expected.accepted.has(code) {
        return Ending::Answered(Quality::Refused, None, line);
    }
    match zero {
        Reading::Value(answer) => value_ending(expected, Quality::Warning, answer, line),
        Reading::Refused(_) | Reading::ComFault(_) | Reading::Unreadable(_) => {
            answered_ending(expected, Quality::Warning, false, None, line)
        }
    }
}

// What the line of a reply with a return code other than 0 would say with return code 0, by this form if there is one.
fn line_as_zero(form: &Option<Form>, call: &Asked, line: &Line) -> Reading
    ensures { (r : ReplyFields) → IsReply line.now.items r → ReadsBy (IsSaid form.now) call.now (as_zero line.now.items) result }
{
    match form {
        Some(form) => line_reading_as_zero(form, line),
        None => reading_as_zero(call, line),
    }
}

// What the line of a reply with a return code other than 0 would say with return code 0, by this form if there is one. For any other
// outcome: `Refused(0)`.
fn zero_of(form: &Option<Form>, call: &Asked, outcome: &Outcome) -> Reading
    ensures { IsZeroOf form.now call.now outcome.now result }
{
    match outcome {
        Outcome::Answered(Reading::Refused(_), line) => line_as_zero(form, call, line),
        _ => Reading::Refused(0),
    }
}

// What the line of a reply says by this form. `None`: there is no form, or the request had another outcome.
fn read_by(form: &Option<Form>, outcome: &Outcome) -> Option<Reading>
    ensures { IsByForm form.now outcome.now result }
{
    match (form, outcome) {
        (Some(form), Outcome::Answered(_, line)) => Some(line_reading(form, line)),
        _ => None,
    }
}

// What a reply says: by a form, if it was read by one, and otherwise as it was read of its call.
fn said_by<'a>(by_form: &'a Option<Reading>, reading: &'a Reading) -> &'a Reading
    ensures { result.now ≡ unwrap_or by_form.now reading.now }
{
    match by_form {
        Some(said) => said,
        None => reading,
    }
}

// The ending of a command whose reply, this line, says `said`, and would say `zero` with return code 0, which only matters if it says a
// return code.
fn answer_ending<'a>(
    expected: &Expected,
    said: &'a Reading,
    zero: &'a Reading,
    line: &'a Line,
) -> Ending<'a>
    ensures { ending_seen result ≡ answer_as expected.now said.now zero.now line.now.items }
{
    match said {
        Reading::Unreadable(fault) => Ending::Unreadable(line, *fault),
        Reading::Value(answer) => value_ending(expected, Quality::Fine, answer, line),
        Reading::Refused(code) => refused_ending(expected, *code, zero, line),
        Reading::ComFault(_) => Ending::Answered(Quality::Refused, None, line),
    }
}

// The ending of a command whose request had this outcome. `expected` is what the text says of its answer, `by_form` what the line of its
// reply says by its form, as `read_by` returns it, and `zero` what the line would say with return code 0, as `zero_of` returns it.
fn ending_of<'a>(
    expected: &Expected,
    by_form: &'a Option<Reading>,
    zero: &'a Reading,
    outcome: &'a Outcome,
) -> Ending<'a>
    ensures { (reads : Reads) (call : Asked) → AreReadings reads → IsReadBy IsAskedReading call outcome.now
        → IsByForm expected.now.form outcome.now by_form.now → IsZeroOf expected.now.form call outcome.now zero.now
        → ending_seen result ≡ end_of reads expected.now call (outcome_seen outcome.now) }
{
    match outcome {
        Outcome::Answered(reading, line) => {
            answer_ending(expected, said_by(by_form, reading), zero, line)
        }
        Outcome::Late => Ending::Late,
        Outcome::Lost => Ending::Lost,
    }
}

/// Whether a command with this ending was answered well: its reply has both codes 0 and values that read, or an accepted return
/// code; and in either case no rule of the text set it aside.
pub fn is_well(ending: Ending<'_>) -> bool
    ensures { result ≡ is_well (ending_seen ending.entry) }
{
    match ending {
        Ending::Answered(quality, ..) => quality.is_good(),
        _ => false,
    }
}

// Whether a command with this ending was answered well, and its answer doesn't wait to be confirmed by a second sending.
pub(crate) fn is_confirmed(ending: Ending<'_>) -> bool
    ensures { result ≡ ended_confirmed (ending_seen ending.entry) }
{
    match ending {
        Ending::Answered(quality, ..) => quality.is_confirmed(),
        _ => false,
    }
}

// Whether a command that ended as unexpected was recorded, once one more command with this ending was. `was`: whether one had before.
pub(crate) fn is_unexpected_after(was: bool, ending: Ending<'_>) -> bool
    ensures { result ≡ unexpected_noted (ending_seen ending.entry) was }
{
    match ending {
        Ending::Judged(Judgement::Unexpected, _) => true,
        _ => was,
    }
}

// The return code other than 0 that a reading has. `None`: it isn't `Refused`.
fn code_in(reading: &Reading) -> Option<u16>
    ensures { result ≡ code_in reading.now }
{
    match reading {
        Reading::Refused(code) => Some(*code),
        _ => None,
    }
}

// The return code other than 0 of the reply that ended a request in time. `None`: no such reply came, or its return code is 0, or
// its communication code isn't.
fn code_of(outcome: &Outcome) -> Option<u16>
    ensures { (reads : Reads) (call : Asked) → AreReadings reads → IsReadBy IsAskedReading call outcome.now
        → result ≡ code_of reads call (outcome_seen outcome.now) }
{
    match outcome {
        Outcome::Answered(reading, _) => code_in(reading),
        Outcome::Late | Outcome::Lost => None,
    }
}

// Whether a command of the current attempt has ended as the chain's rule names, once this command has ended. `listed`: whether a
// command before this one had, which doesn't count if the attempt begins with this one. `code`: what `code_of` returns for this
// command; `None` if it wasn't sent.
pub(crate) fn is_listed_after(
    listed: bool,
    expected: &Expected,
    code: Option<u16>,
    ending: Ending<'_>,
) -> bool
    ensures { result ≡ listed_after listed expected.now code (ending_seen ending.entry) }
{
    (expected.turn.link != 0 && listed) || expected.again.repeats_after(code, ending)
}

// Writes how a request with this mark ended, by the moment `now`, and notes that in `recorded`. A null procedure has no mark:
// nothing is written or noted of it. `Err`: the book failed, and nothing is noted.
fn write_settlement<B: Book>(
    book: &mut B,
    recorded: &mut Recorded,
    now: Moment,
    mark: Option<Mark>,
    settlement: &Settlement<Asked>,
) -> Result<(), PortFailed>
    requires { IsReadBy IsAskedReading settlement.now.call settlement.now.outcome }
    ensures wrote { WritesNews (B.text book.old) (B.taken book.old) (B.taken book.new) (news_of now.utc (mark ∷ []) (settlement.now ∷ [])) result }
    ensures notes { NotesNews recorded.old recorded.new now (mark ∷ []) (settlement.now ∷ []) result }
    ensures kept { KeepsBook B.Book book.old book.new result }
{
    let Some(mark) = mark else {
        return Ok(());
    };
    let stamp = Stamp {
        sent: Some(mark.sent),
        id: mark.id,
        utc: now.utc,
        cycle: mark.cycle,
        place: mark.place,
        turn: mark.expected.turn,
    };
    let command = Wish {
        target: settlement.target,
        call: settlement.call,
    };
    let form = &mark.expected.form;
    let by_form = read_by(form, &settlement.outcome);
    let zero = zero_of(form, &settlement.call, &settlement.outcome);
    let ending = ending_of(&mark.expected, &by_form, &zero, &settlement.outcome);
    if let Err(failed) = book.write(stamp, &command, ending) {
        return Err(failed);
    }
    let code = code_of(&settlement.outcome);
    recorded.note(&mark, now, code, ending);
    Ok(())
}

// Writes the records of these settlements, which are those of the oldest outstanding requests, notes each in `recorded`, as
// `write_settlement` does, and removes the marks of these requests. `Err`: the book failed at a record. It isn't noted, and none after
// it is written or noted.
pub(crate) fn write_settlements<B: Book>(
    book: &mut B,
    recorded: &mut Recorded,
    marks: &mut ArrayVec<Option<Mark>, WINDOW>,
    now: Moment,
    settlements: &[Settlement<Asked>],
) -> Result<(), PortFailed>
    requires { AreReadBy IsAskedReading settlements.now }
    ensures wrote { WritesNews (B.text book.old) (B.taken book.old) (B.taken book.new) (news_of now.utc marks.old.items settlements.now) result }
    ensures notes { NotesNews recorded.old recorded.new now marks.old.items settlements.now result }
    ensures marks { OnOk result (marks.new.items ≡ drop (length settlements.now) marks.old.items) }
    ensures kept { KeepsBook B.Book book.old book.new result }
{
    for settlement in settlements {
        let mark = take_mark(marks);
        if let Err(failed) = write_settlement(book, recorded, now, mark, settlement) {
            return Err(failed);
        }
    }
    Ok(())
}
